//! Tests of names, values, literals, pairs and books: what no clause says of calls that the program
//! doesn't make, that ample memory and any depth will do, and that copies stay as they were.
#![tactic(auto)]

#[cfg(test)]
mod books;
#[cfg(test)]
mod depth;
#[cfg(test)]
mod keys;
#[cfg(test)]
mod literals;
#[cfg(test)]
mod pairs;
