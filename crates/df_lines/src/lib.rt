//! Files that are read line by line: the first bad line, and what is refused.
#![tactic(auto)]

mod fault;
mod lines;
mod refused;

pub use fault::FileFault;
pub use lines::{file_refused, line_at};
pub use refused::{BadKind, FileRefused};
