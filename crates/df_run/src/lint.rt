ghost use Rattle.std.specs.Prelude.{IfErr, IfOk};
ghost use Rattle.df_lines.specs.Refused.{NamesBadLine};
ghost use Rattle.df_run.specs.Lint.{LintsScript};
ghost use Rattle.df_script_text.specs.Script.{IsScriptText};
ghost use Rattle.df_script_text.specs.TooLarge.{IsTooLargeIn};

use df_lines::FileRefused;
use df_lint::lint_text;
use df_memory::NoMemory;
use df_script_text::read_script;
use std::alloc::Global;

/// The lines of a script's start. Its calls aren't made.
pub fn lint_script(alloc: Global, bytes: &[u8]) -> Result<Vec<u8>, FileRefused>
    ensures lints { IfOk result (λ text. LintsScript bytes.now text.items) }
    ensures refuses { IfErr result (NamesBadLine IsScriptText IsTooLargeIn bytes.now) }
{
    let (start, _) = match read_script(alloc, bytes) {
        Ok(script) => script,
        Err(refused) => return Err(refused),
    };
    match lint_text(alloc, &start) {
        Ok(text) => Ok(text),
        Err(NoMemory) => Err(FileRefused::NoMemory),
    }
}
