//! Tests of units: the calls of one unit by their own functions, how many filters an index tests,
//! journals that are read and written entry by entry, and audits by a machine.
#![tactic(auto)]

#[cfg(test)]
mod audits;
#[cfg(test)]
mod calls;
#[cfg(test)]
mod index;
#[cfg(test)]
mod journals;
