//! Tests of kept journals: the bytes of a store, and what is found of one that was stopped at each
//! call of its disk, with each image that a crash may leave then.
#![tactic(auto)]

#[cfg(test)]
mod keeping;
#[cfg(test)]
mod stores;
