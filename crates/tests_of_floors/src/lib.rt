//! Tests of what drives a floor's units: a brain through its bound, and units at replies that no
//! run gives them.
#![tactic(auto)]

#[cfg(test)]
mod brains;
#[cfg(test)]
mod floor_units;
