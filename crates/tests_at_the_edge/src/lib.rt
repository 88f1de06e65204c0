//! Tests of what lies outside: real files, the real output and a real disk, and threads that share
//! a desk.
#![tactic(auto)]

#[cfg(test)]
mod desk;
#[cfg(test)]
mod disk;
#[cfg(test)]
mod files;
