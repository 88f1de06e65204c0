//! That each entry of a machine's journal, and each start, has a spelling.
#![tactic(auto)]

mod entries;
mod laws;
mod names;
mod spelled;
mod values;

pub use entries::{
    effect_is_spelled, entry_is_spelled, event_reply_is_spelled, given_is_spelled,
    reply_is_spelled, seen_is_spelled, start_is_spelled,
};
pub use laws::an_answer_is_joined;
pub use names::contamination_is_spelled;
