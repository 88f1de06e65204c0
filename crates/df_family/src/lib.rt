//! The family of each root of a start, and which privileges it may hold. The crate has no code:
//! each function is a law, and its contract is what holds.
#![tactic(auto)]

ghost use Rattle.std.specs.Prelude.{◌≡◌, ◌++◌, ◌∷◌, [], List, ℕ, true};
ghost use Rattle.df_label.specs.declared.privilege.Privilege.{Privilege};
ghost use Rattle.df_family.specs.Family.{is_of, names};
ghost use Rattle.df_family.specs.May.{MayHold};
ghost use Rattle.df_family.specs.Never.{NeverHolds};
ghost use Rattle.df_rules.specs.Always.{Roots};
ghost use Rattle.df_unit.specs.declared.name.UnitName.TheVariants as name;

/// Where a root's family may not hold a privilege over a tag of the start, no unit of the family
/// holds it in any legal journal from the start into which nothing was emitted.
pub fn who_may_not_hold_never_holds()
    ensures { (start : Roots) (k : ℕ) (p : Privilege) → names start p.tag ≡ true →
        ¬ MayHold start k p → NeverHolds start k p }
{}

/// A root is of its own family, and with a unit so are the units that it makes and the instances of
/// its managed subscriptions.
pub fn children_and_instances_are_of_the_family()
    ensures root { (k : ℕ) → is_of k (name.Root (k ∷ [])) ≡ true }
    ensures children { (k : ℕ) (path : List ℕ) (n : ℕ) → is_of k (name.Root path) ≡ true →
        is_of k (name.Root (path ++ n ∷ [])) ≡ true }
    ensures instances { (k : ℕ) (path : List ℕ) (sub : ℕ) (s : List (List ℕ)) →
        is_of k (name.Root path) ≡ true → is_of k (name.Managed path sub s) ≡ true }
{}
