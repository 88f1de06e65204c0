//! The laws of privileges, each the contract of a function that does nothing.
ghost use Rattle.std.specs.Prelude.{◌≡◌, ◌≢◌, ℕ, List, [], IsTrue, ◌||◌, false};
ghost use Rattle.df_label.specs.Ascending.{IsAscending};
ghost use Rattle.df_label.specs.Privilege.{privilege_cmp, privilege_eq};
ghost use Rattle.df_label.specs.declared.privilege.Privilege.{Privilege};
ghost use Rattle.df_label.specs.declared.privilege.Right.{Right};
ghost use Rattle.df_priv.specs.Held.{holds, grant};
ghost use Rattle.df_priv.specs.Needed.{needed, needed_to_attach};
ghost use Rattle.df_priv.specs.declared.need.Act.{Act};

/// What is held only grows: by the privilege that is granted, and by that one alone.
pub fn held_only_grows()
    ensures kept { (held : List Privilege) (p q : Privilege) → IsTrue (holds held q) →
        IsTrue (holds (grant held p) q) }
    ensures granted { (held : List Privilege) (p : Privilege) → IsTrue (holds (grant held p) p) }
    ensures alone { (held : List Privilege) (p q : Privilege) →
        holds (grant held p) q ≡ (privilege_eq p q || holds held q) }
    ensures ascending { (held : List Privilege) (p : Privilege) → IsAscending privilege_cmp held →
        IsAscending privilege_cmp (grant held p) }
{}

/// No right stands in for another: a unit that was granted one right over a tag, and nothing
/// else, holds no other, so that who may pass on a right may not use it.
pub fn no_right_stands_in_for_another()
    ensures { (t : List ℕ) (r s : Right) → r ≢ s →
        holds (grant [] (record { tag = t; right = r })) (record { tag = t; right = s }) ≡ false }
{}

/// What a change of a label needs is never enough for attaching, and the other way round.
pub fn use_and_passing_on_are_apart()
    ensures { (act : Act) (t : List ℕ) (p : Privilege) → needed act t ≢ needed_to_attach p }
{}
