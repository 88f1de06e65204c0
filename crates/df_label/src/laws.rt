//! The laws of sets and labels, each the contract of a function that does nothing.
ghost use Rattle.std.specs.Prelude.{◌≡◌, ℕ, List, [], ◌∷◌, ◌++◌, IsTrue, IsNone, Some, ◌↔◌, ◌&&◌, ◌||◌, not};
ghost use Rattle.df_label.specs.Ascending.{IsAscending};
ghost use Rattle.df_label.specs.Tag.{tag_cmp, tag_eq, maker_of, number_of};
ghost use Rattle.df_label.specs.TagSet.{contains, is_subset, first_missing, with, without, union, meet, IsLeastMissing};
ghost use Rattle.df_label.specs.Label.{flows_to, join, label_eq, IsCanonical};
ghost use Rattle.df_label.specs.Privilege.{privilege_cmp, privilege_eq};
ghost use Rattle.df_label.specs.Privileges.{contains as holds, add};
ghost use Rattle.df_label.specs.declared.privilege.Privilege.{Privilege};
ghost use Rattle.df_label.specs.declared.label.Label.{Label};

/// A tag tells its maker and its number.
pub fn tags_are_made_of_maker_and_number()
    ensures maker { (maker : List ℕ) (number : ℕ) → maker_of (maker ++ number ∷ []) ≡ maker }
    ensures number { (maker : List ℕ) (number : ℕ) → number_of (maker ++ number ∷ []) ≡ number }
{}

/// Each operation is the one of its name on sets: a tag is in the union of two exactly if it is in
/// one of them, and so on.
pub fn operations_are_those_of_sets()
    ensures tag_eq { (t u : List ℕ) → IsTrue (tag_eq t u) ↔ (t ≡ u) }
    ensures with { (ts : List (List ℕ)) (t u : List ℕ) →
        contains (with ts t) u ≡ (tag_eq t u || contains ts u) }
    ensures without { (ts : List (List ℕ)) (t u : List ℕ) →
        contains (without ts t) u ≡ (contains ts u && not (tag_eq u t)) }
    ensures union { (ts us : List (List ℕ)) (t : List ℕ) →
        contains (union ts us) t ≡ (contains ts t || contains us t) }
    ensures meet { (ts us : List (List ℕ)) (t : List ℕ) →
        contains (meet ts us) t ≡ (contains ts t && contains us t) }
{}

/// Sets stay ascending lists without repeats, so that sets with the same tags are equal.
pub fn sets_are_their_tags()
    ensures with { (ts : List (List ℕ)) (t : List ℕ) → IsAscending tag_cmp ts →
        IsAscending tag_cmp (with ts t) }
    ensures without { (ts : List (List ℕ)) (t : List ℕ) → IsAscending tag_cmp ts →
        IsAscending tag_cmp (without ts t) }
    ensures union { (ts us : List (List ℕ)) → IsAscending tag_cmp ts →
        IsAscending tag_cmp (union ts us) }
    ensures meet { (ts us : List (List ℕ)) → IsAscending tag_cmp ts →
        IsAscending tag_cmp (meet ts us) }
    ensures same { (ts us : List (List ℕ)) → IsAscending tag_cmp ts → IsAscending tag_cmp us →
        ((t : List ℕ) → contains ts t ≡ contains us t) → ts ≡ us }
{}

/// Inclusion goes by the tags, and what is missing is the least tag that breaks it.
pub fn inclusion_goes_by_the_tags()
    ensures is_subset { (ts us : List (List ℕ)) →
        IsTrue (is_subset ts us) ↔ ((t : List ℕ) → IsTrue (contains ts t) →
        IsTrue (contains us t)) }
    ensures none_missing { (ts of : List (List ℕ)) →
        IsNone (first_missing ts of) ↔ IsTrue (is_subset of ts) }
    ensures least_missing { (ts of : List (List ℕ)) (t : List ℕ) → IsAscending tag_cmp of →
        first_missing ts of ≡ Some t → IsLeastMissing ts of t }
{}

/// Can-flow-to is a partial order.
pub fn flow_is_a_partial_order()
    ensures label_eq { (a b : Label) → IsTrue (label_eq a b) ↔ (a ≡ b) }
    ensures reflexive { (a : Label) → IsTrue (flows_to a a) }
    ensures transitive { (a b c : Label) → IsTrue (flows_to a b) → IsTrue (flows_to b c) →
        IsTrue (flows_to a c) }
    ensures antisymmetric { (a b : Label) → IsCanonical a → IsCanonical b → IsTrue (flows_to a b) →
        IsTrue (flows_to b a) → a ≡ b }
{}

/// The join of two labels is the least to which both flow.
pub fn join_is_the_least_upper_bound()
    ensures left { (a b : Label) → IsTrue (flows_to a (join a b)) }
    ensures right { (a b : Label) → IsTrue (flows_to b (join a b)) }
    ensures least { (a b c : Label) → IsTrue (flows_to a c) → IsTrue (flows_to b c) →
        IsTrue (flows_to (join a b) c) }
    ensures canonical { (a b : Label) → IsCanonical a → IsCanonical (join a b) }
{}

/// Adding a privilege adds that one alone, and sets with the same privileges are equal.
pub fn privileges_are_sets()
    ensures contains { (ps : List Privilege) (p q : Privilege) →
        holds (add ps p) q ≡ (privilege_eq p q || holds ps q) }
    ensures privilege_eq { (p q : Privilege) → IsTrue (privilege_eq p q) ↔ (p ≡ q) }
    ensures ascending { (ps : List Privilege) (p : Privilege) → IsAscending privilege_cmp ps →
        IsAscending privilege_cmp (add ps p) }
    ensures same { (ps qs : List Privilege) → IsAscending privilege_cmp ps →
        IsAscending privilege_cmp qs → ((p : Privilege) → holds ps p ≡ holds qs p) → ps ≡ qs }
{}
