//! The calls that create an event or drop one. Where they are accepted, they are made and spelled
//! without a reply of the call table.
ghost use Rattle.std.specs.Prelude.{◌≡◌, ◌++◌, IfSome, OnOk};
ghost use Rattle.df_journal_text.specs.Ask.{asked};
ghost use Rattle.df_journal_text.specs.Entry.{entry_text};
ghost use Rattle.df_journal_text.specs.Fits.{IsReply};
ghost use Rattle.df_journal_text.specs.Front.{call_front};
ghost use Rattle.df_local.specs.Brief.{accepted_reply, brief_call};
ghost use Rattle.df_unit.specs.declared.call.Call.{Call};
ghost use Rattle.df_unit.specs.declared.entry.Effect.TheVariants as Effect;
ghost use Rattle.df_unit.specs.declared.entry.Entry.TheVariants.{Done};
ghost use Rattle.df_unit.specs.declared.name.UnitName.{UnitName};

use df_journal_text::{Ask, Note, append_done, append_handled};
use df_local::{Accepted, Brief};
use df_memory::NoMemory;

/// The call that creates an event or drops one, where the common call is such.
pub(crate) fn brief_of(ask: Ask) -> Option<Brief>
    ensures { IfSome result (λ brief. brief_call brief ≡ asked ask) }
{
    match ask {
        Ask::Create => Some(Brief::Create),
        Ask::Drop { h } => Some(Brief::Drop { h }),
        _ => None,
    }
}

/// What is accepted has a spelling.
pub(crate) fn accepted_is_spelled(accepted: Accepted)
    ensures { IsReply (accepted_reply accepted) }
{
    match accepted {
        Accepted::Handle(_) => (),
        Accepted::Ok => (),
    }
}

/// Appends the entry of a call that is accepted, behind its words, with this note.
#[inline(always)]
pub(crate) fn append_accepted(
    words: &[u8],
    accepted: Accepted,
    note: &Note,
    text: &mut Vec<u8>,
) -> Result<(), NoMemory>
    ensures { (actor : UnitName) (call : Call) → words.now ≡ call_front actor call →
        OnOk result (text.new.items ≡ text.old.items ++ entry_text note.now
        (Done actor call (accepted_reply accepted) Effect.Nothing)) }
{
    match accepted {
        Accepted::Handle(h) => append_handled(words, h, note, text),
        Accepted::Ok => append_done(words, note, text),
    }
}
