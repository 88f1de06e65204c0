//! The text of scripts: a line for each root, and a line for each call that a unit makes.
#![tactic(auto)]

mod call;
mod common;
mod file;
mod laws;
mod line;
mod reader;
mod root;

pub use call::{call_at, common_call_at, root_call_at};
pub use common::{CommonLine, RootLine};
pub use file::read_script;
pub use laws::{a_script_is_read_back, a_text_is_one_script};
pub use line::{ReadLine, ScriptLine, fault_of, read_line};
pub use reader::ScriptReader;
pub use root::{read_root, roots_at};
