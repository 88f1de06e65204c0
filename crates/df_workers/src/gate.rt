//! What a worker passes on its way.

use df_unit::UnitName;
use std::sync::Wait;

/// What a worker calls before and after each of its steps, in the thread in which it works. It may
/// wait.
///
/// `made` is how many steps the worker had been answered for this unit in this round before the
/// step that it is about to make, or has made: 0 at the first.
pub trait Gate {
    fn before<R: Wait>(&self, rt: &R, unit: &UnitName, made: u64);

    fn after<R: Wait>(&self, rt: &R, unit: &UnitName, made: u64);
}

/// A gate that does nothing.
#[derive(Clone, Copy, Debug, Default)]
pub struct OpenGate;

impl Gate for OpenGate {
    fn before<R: Wait>(&self, _rt: &R, _unit: &UnitName, _made: u64) {}

    fn after<R: Wait>(&self, _rt: &R, _unit: &UnitName, _made: u64) {}
}
