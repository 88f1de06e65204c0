//! What the rules give of a spelling, as laws.
ghost use Rattle.std.specs.Prelude.{List};
ghost use Rattle.df_journal_file.specs.Journal.{IsWholeEntry};
ghost use Rattle.df_rules.specs.Legal.{answered};
ghost use Rattle.df_rules.specs.Start.{rows};
ghost use Rattle.df_spelled.specs.Spelled.{IsJoined, IsWorded};
ghost use Rattle.df_unit.specs.OwnState.{OwnState};
ghost use Rattle.df_unit.specs.declared.call.Call.{Call};
ghost use Rattle.df_unit.specs.declared.entry.Entry.{Entry};
ghost use Rattle.df_unit.specs.declared.name.UnitName.{UnitName};

/// An entry whose words are literals and whose effect belongs to its reply is an entry of a journal
/// in its first version.
pub(crate) fn worded_and_joined_is_whole()
    ensures { (entry : Entry) → IsWorded entry → IsJoined entry → IsWholeEntry entry }
{}

/// The answer of the rules belongs together, after each start and each journal.
pub fn an_answer_is_joined()
    ensures { (s : List OwnState) (past : List Entry) (actor : UnitName) (call : Call) →
        IsJoined (answered rows s past actor call) }
{}
