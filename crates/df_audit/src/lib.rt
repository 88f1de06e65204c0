//! What an auditor asks of the bytes of a kept journal: whether it is what the rules give, what it
//! would have been to a label, the contaminations of its units, and why one of its entries stands.
#![tactic(auto)]

mod audit;
mod brief;
mod called;
mod check;
mod laws;
mod made;
mod pass;
mod right;
mod text;
mod why;

pub use audit::{Audit, Finding};
pub use check::check_text;
pub use laws::{a_journal_is_right_or_wrong, a_wrong_journal_has_one_place};
pub use made::{Hears, Heedless, append_call, append_common};
pub use right::{purge_text, upgrade_text};
pub use why::why_text;
