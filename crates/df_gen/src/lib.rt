//! Ticks that a generator makes of a key.
#![tactic(auto)]

mod generate;

pub use generate::gen_ticks;
