//! The contaminations that go with the entries of a kept journal.
#![tactic(auto)]

mod notes;

pub use notes::{Judged, judge_and_note, note};
