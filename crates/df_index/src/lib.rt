//! Subscriptions of units, listed by the first name of their filters, and who is to be handed an
//! event at a commit.
#![tactic(auto)]

mod due;
mod index;
mod listed;
mod listing;
mod marks;
mod matching;
mod names;
mod receivers;
mod steps;
mod subscription;
mod tester;

pub use index::Index;
pub use listed::Listed;
pub use receivers::Receivers;
pub use steps::Steps;
pub use subscription::Subscription;
pub use tester::Tester;
