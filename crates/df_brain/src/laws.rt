//! What holds of every brain.

ghost use Rattle.std.specs.Prelude.{◌≡◌, false, List};
ghost use Rattle.df_rules.specs.Follows.{brain_of, wanted};
ghost use Rattle.df_unit.specs.declared.reply.Reply.{Reply};
ghost use Rattle.df_brain.specs.Brain.{is_child_wanted};

use crate::Brain;

/// After any replies, no brain wants to make a unit.
pub fn brains_make_no_units<B: Brain>()
    ensures { (b : B) (replies : List Reply) →
        is_child_wanted (wanted (brain_of B.next B.instance) b replies).0 ≡ false }
{}
