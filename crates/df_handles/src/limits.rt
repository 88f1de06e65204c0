//! How much a unit may have open at most.

/// How many handles a unit may have open.
pub const MOST_HANDLES: usize = 64;
