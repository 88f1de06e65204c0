//! Whole scripts.

ghost use Rattle.std.specs.Prelude.{◌≡◌, ◌+◌, ◌∷◌, ◌++◌, List, [], ℕ, length, IfErr, IfOk, OnOk};
ghost use Rattle.df_lines.specs.FirstBad.{IsFirstBad};
ghost use Rattle.df_lines.specs.Refused.{IsRefused, NamesBadLine};
ghost use Rattle.df_lines.specs.declared.refused.FileRefused.TheVariants as refused;
ghost use Rattle.df_start.specs.declared.start.RootStart.{RootStart};
ghost use Rattle.df_script_text.specs.Reader.{HasRead};
ghost use Rattle.df_script_text.specs.Script.{IsReadScript, IsScript, IsScriptText, script_text};
ghost use Rattle.df_script_text.specs.TooLarge.{IsTooLargeIn};
ghost use Rattle.df_script_text.specs.declared.line.ScriptLine.{ScriptLine};

use crate::line::ScriptLine;
use crate::reader::ScriptReader;
use df_lines::FileRefused;
use df_memory::NoMemory;
use df_start::Start;
use std::alloc::Global;

fn push_line(lines: &mut Vec<ScriptLine>, line: ScriptLine) -> Result<(), NoMemory>
    ensures { OnOk result (lines.new.items ≡ lines.old.items ++ line ∷ []) }
{
    lines.push(line)?;
    Ok(())
}

/// The calls that are left to a reader.
fn lines_of(alloc: Global, reader: &mut ScriptReader<'_>) -> Result<Vec<ScriptLine>, FileRefused>
    ensures read { IfOk result (λ lines. (roots : List RootStart) → HasRead roots [] reader.old
        → IsScript roots lines.items × (reader.old.bytes ≡ script_text roots lines.items)) }
    ensures refused { IfErr result (λ e. (roots : List RootStart) → HasRead roots [] reader.old
        → NamesBadLine IsScriptText IsTooLargeIn reader.old.bytes e) }
{
    let mut lines = Vec::new(alloc);
    'lines: while let Some(read) = reader.next_line()? {
        push_line(&mut lines, read.line)?;
    }
    Ok(lines)
}

/// The script that these bytes are.
fn whole_script(alloc: Global, bytes: &[u8]) -> Result<(Start, Vec<ScriptLine>), FileRefused>
    ensures read { IfOk result (λ s. IsScript s.0 s.1.items ×
        (bytes.now ≡ script_text s.0 s.1.items)) }
    ensures refused { IfErr result (NamesBadLine IsScriptText IsTooLargeIn bytes.now) }
{
    let (start, mut reader) = ScriptReader::begin(alloc, bytes)?;
    let lines = lines_of(alloc, &mut reader)?;
    Ok((start, lines))
}

/// Reads a script. Where a file isn't spelled as one, the first bad line is told, and whether a
/// value that is too large stands there.
pub fn read_script(alloc: Global, bytes: &[u8]) -> Result<(Start, Vec<ScriptLine>), FileRefused>
    ensures read { IfOk result (λ s. IsScript s.0 s.1.items ×
        (bytes.now ≡ script_text s.0 s.1.items)) }
    ensures only { (roots : List RootStart) (lines : List ScriptLine) → IsScript roots lines
        → bytes.now ≡ script_text roots lines
        → IsReadScript (λ s. (s.0, s.1.items)) roots lines result }
    ensures refused { IfErr result (NamesBadLine IsScriptText IsTooLargeIn bytes.now) }
    ensures syntax { (before : List (List ℕ)) (bad : List ℕ)
        → IsFirstBad IsScriptText bytes.now before bad → ¬ IsTooLargeIn before bad
        → IsRefused (refused.Syntax (length before + 1)) result }
    ensures too_large { (before : List (List ℕ)) (bad : List ℕ)
        → IsFirstBad IsScriptText bytes.now before bad → IsTooLargeIn before bad
        → IsRefused (refused.TooLarge (length before + 1)) result }
{
    match whole_script(alloc, bytes) {
        Ok(script) => Ok(script),
        Err(refused) => Err(refused),
    }
}
