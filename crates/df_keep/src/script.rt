ghost use Rattle.std.specs.Prelude.{◌≡◌, ◌≤◌, ℕ, List, length, IfErr, IfOk, Some};
ghost use Rattle.df_io.specs.Limits.{longest_file};
ghost use Rattle.df_keep.specs.Outcome.{IsCutOff};
ghost use Rattle.df_keep.specs.Reading.{IsBlamed, IsReadAs, StopsReading, blamed};
ghost use Rattle.df_keep.specs.Script.{IsToldScript, ReadsScript, WasRead};
ghost use Rattle.df_script_text.specs.Script.{IsScript, script_text};
ghost use Rattle.df_script_text.specs.declared.line.ScriptLine.{ScriptLine};
ghost use Rattle.df_start.specs.declared.start.RootStart.{RootStart};

use crate::KeepStatus;
use df_io::{NotRead, Shelf, read_file};
use df_lines::{BadKind, FileRefused};
use df_script_text::{ScriptLine, read_script};
use df_start::Start;
use std::alloc::Global;

/// A start, and the calls that are to be made.
#[derive(Drop)]
pub struct Script {
    pub start: Start,
    pub lines: Vec<ScriptLine>,
}

/// The bytes of the script's file.
fn bytes_of<F: Shelf>(alloc: Global, shelf: &mut F, name: &str) -> Result<Vec<u8>, KeepStatus>
    ensures read { IfOk result (λ v. WasRead (F.bytes shelf.old name.now) v.items) }
    ensures stops { IfErr result (StopsReading (F.bytes shelf.old name.now)
        (F.faults shelf.old) (F.faults shelf.new)) }
    ensures short { (bytes : List ℕ) → F.bytes shelf.old name.now ≡ Some bytes
        → length bytes ≤ longest_file → IfErr result IsCutOff }
    ensures never_falls { F.faults shelf.old ≤ F.faults shelf.new }
{
    match read_file(alloc, shelf, name) {
        Ok(bytes) => Ok(bytes),
        Err(NotRead::Fault) => Err(KeepStatus::ReadFault),
        Err(NotRead::TooLong) => Err(KeepStatus::TooLong { input: 1 }),
        Err(NotRead::NoMemory) => Err(KeepStatus::NoMemory),
    }
}

/// How a run ends where its script is refused.
fn blamed(refused: FileRefused) -> KeepStatus
    ensures { result ≡ blamed refused }
{
    let (line, kind) = match refused {
        FileRefused::Syntax { line } => (line, BadKind::Syntax),
        FileRefused::TooLarge { line } => (line, BadKind::TooLarge),
        FileRefused::NoMemory => return KeepStatus::NoMemory,
    };
    let input = 1;
    KeepStatus::BadInput { input, line, kind }
}

/// The script that these bytes are.
fn script_in(alloc: Global, bytes: &[u8]) -> Result<Script, KeepStatus>
    ensures read { IfOk result (λ s. IsScript s.start s.lines.items
        × (bytes.now ≡ script_text s.start s.lines.items)) }
    ensures refused { IfErr result (IsBlamed bytes.now) }
    ensures only { (roots : List RootStart) (lines : List ScriptLine) → IsScript roots lines
        → bytes.now ≡ script_text roots lines → IsReadAs roots lines result }
{
    match read_script(alloc, bytes) {
        Ok((start, lines)) => Ok(Script { start, lines }),
        Err(refused) => Err(blamed(refused)),
    }
}

/// Reads the script, whole.
pub fn script_of<F: Shelf>(alloc: Global, shelf: &mut F, name: &str) -> Result<Script, KeepStatus>
    ensures read { IfOk result (λ s.
        ReadsScript (F.bytes shelf.old name.now) s.start s.lines.items) }
    ensures stops { IfErr result (StopsReading (F.bytes shelf.old name.now)
        (F.faults shelf.old) (F.faults shelf.new)) }
    ensures only { (roots : List RootStart) (lines : List ScriptLine) →
        IsToldScript (F.bytes shelf.old name.now) roots lines → IsReadAs roots lines result }
{
    let bytes = bytes_of(alloc, shelf, name)?;
    script_in(alloc, &bytes)
}
