//! What the text of a script tells, as laws.
ghost use Rattle.std.specs.Prelude.{◌≡◌, ◌++◌, ℕ, List, Ok, false};
ghost use Rattle.df_start.specs.declared.start.RootStart.{RootStart};
ghost use Rattle.df_value_text.specs.ReadTag.{begins_digit};
ghost use Rattle.df_script_text.specs.ReadScript.{script_at};
ghost use Rattle.df_script_text.specs.Script.{IsScript, script_text};
ghost use Rattle.df_script_text.specs.declared.line.ScriptLine.{ScriptLine};

/// No text spells two scripts: the bytes determine the start and the calls.
pub fn a_text_is_one_script()
    ensures { (roots others : List RootStart) (lines more : List ScriptLine)
        → IsScript roots lines → IsScript others more
        → script_text roots lines ≡ script_text others more → (roots ≡ others) × (lines ≡ more) }
{}

/// A script that is spelled is read back, and what stands behind it is left.
pub fn a_script_is_read_back()
    ensures { (roots : List RootStart) (lines : List ScriptLine) (rest : List ℕ)
        → IsScript roots lines → begins_digit rest ≡ false
        → script_at (script_text roots lines ++ rest) ≡ Ok ((roots, lines), rest) }
{}
