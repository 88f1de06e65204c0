//! The lines of calls.

ghost use Rattle.std.specs.Prelude.{◌≡◌, ◌≤◌, ◌<◌, drop, length, option_map, IfErr, IfOk};
ghost use Rattle.df_lines.specs.Lines.{IsLine};
ghost use Rattle.df_journal_text.specs.Large.{IsLargeCalled};
ghost use Rattle.df_journal_text.specs.code.Judging.{TellsLine};
ghost use Rattle.df_script_text.specs.Script.{IsScriptLine, script_line};
ghost use Rattle.df_script_text.specs.code.Stops.{StopsCall, TellsWords, fault_of};

use df_journal_text::{KnownLabel, LineFault, read_call_at, unit_at};
use df_lines::{FileFault, line_at};
use df_unit::{Call, UnitName};
use std::alloc::Global;

/// A call of a script, and the unit that makes it.
#[derive(Drop)]
pub struct ScriptLine {
    pub actor: UnitName,
    pub call: Call,
}

/// A call of a script, and the words of its line as they stand in the bytes that are read, without
/// the line feed.
#[derive(Drop)]
pub struct ReadLine<'a> {
    pub words: &'a [u8],
    pub line: ScriptLine,
}

/// The call of a line, without its line feed.
pub fn read_line(alloc: Global, line: &[u8]) -> Result<ScriptLine, LineFault>
    ensures { TellsLine script_line IsScriptLine IsLargeCalled line.now result }
{
    let (actor, behind) = unit_at(alloc, line, 0)?;
    let (call, end) = read_call_at(alloc, &mut KnownLabel::new(alloc), line, behind)?;
    if end != line.len() {
        return Err(LineFault::Syntax);
    }
    Ok(ScriptLine { actor, call })
}

/// Why nothing is read at the place, where this came of its line.
pub fn fault_of(at: usize, fault: LineFault) -> FileFault
    ensures { result ≡ fault_of at fault }
{
    match fault {
        LineFault::Syntax => FileFault::Bad(at),
        LineFault::TooLarge => FileFault::TooLarge(at),
        LineFault::NoMemory => FileFault::NoMemory,
    }
}

/// What is left from the place on.
fn rest_at(bytes: &[u8], at: usize) -> &[u8]
    requires { at ≤ length bytes.now }
    ensures { result.now ≡ drop at bytes.now }
{
    &bytes[at..]
}

/// Why no call is read at the place, from which on there is no line feed.
#[inline(never)]
fn open_fault(alloc: Global, bytes: &[u8], at: usize) -> FileFault
    requires some { at < length bytes.now }
    requires open { IsLine (drop at bytes.now) }
    ensures { StopsCall bytes.now at result }
{
    match read_line(alloc, rest_at(bytes, at)) {
        Ok(line) => {
            drop(line);
            FileFault::Bad(at)
        }
        Err(fault) => fault_of(at, fault),
    }
}

/// The line at the place without its line feed, and the place behind that; none where no byte is
/// left.
pub fn words_at(alloc: Global, bytes: &[u8], at: usize) -> Result<Option<(&[u8], usize)>, FileFault>
    requires { at ≤ length bytes.now }
    ensures read { IfOk result (λ line. TellsWords bytes.now at
        (option_map (λ l. (l.0.now, l.1)) line)) }
    ensures stops { IfErr result (StopsCall bytes.now at) }
{
    if at == bytes.len() {
        return Ok(None);
    }
    match line_at(bytes, at) {
        Some(line) => Ok(Some(line)),
        None => Err(open_fault(alloc, bytes, at)),
    }
}
