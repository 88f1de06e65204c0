//! The entries of a journal on which an entry rests.
#![tactic(auto)]

mod firsts;
mod found;
mod links;
mod names;
mod numbers;
mod queue;
mod queues;
mod tracks;
mod walk;
mod why;

ghost use Rattle.std.specs.Prelude.{true, ◌≡◌, ◌∷◌, ◌++◌, ℕ, Bool, List, length};
ghost use Rattle.df_rules.specs.Always.{InEach, InEachLegal};
ghost use Rattle.df_rules.specs.Legal.{Legal};
ghost use Rattle.df_rules.specs.Own.{own};
ghost use Rattle.df_rules.specs.Start.{rows};
ghost use Rattle.df_unit.specs.declared.call.Call.{Call};
ghost use Rattle.df_unit.specs.declared.entry.Effect.{Effect};
ghost use Rattle.df_unit.specs.declared.entry.Entry.{Entry};
ghost use Rattle.df_unit.specs.declared.entry.Entry.TheVariants.{Done};
ghost use Rattle.df_unit.specs.declared.name.UnitName.{UnitName};
ghost use Rattle.df_unit.specs.declared.reply.Reply.{Reply};
ghost use Rattle.df_why.specs.Grounds.{IsClosed, IsLeast, chosen};

pub use why::grounds;

/// The entries of a closed set of a legal journal are a legal journal, each with its reply and
/// effect. The unit of each is before it as it was. Of the least set that has a place, the last
/// entry is the one that stands there.
pub fn grounds_are_legal()
    ensures legal { InEachLegal (λ s j. (set : ℕ → Bool) → IsClosed rows s set j →
        Legal rows s (chosen set j)) }
    ensures units { InEach (λ s j. (set : ℕ → Bool) → IsClosed rows s set j →
        (newer past : List Entry) (u : UnitName) (c : Call) (r : Reply) (f : Effect) →
        j ≡ newer ++ Done u c r f ∷ past → set (length past) ≡ true →
        own rows s (chosen set past) u ≡ own rows s past u) }
    ensures last { InEach (λ s j. (set : ℕ → Bool) (place : ℕ) → IsLeast rows s j place set →
        (newer past : List Entry) (e : Entry) → j ≡ newer ++ e ∷ past → length past ≡ place →
        chosen set j ≡ e ∷ chosen set past) }
{}
