//! How much a unit may have at most.

/// How many parts may be drafted at a handle.
pub const MOST_PARTS: usize = 64;

/// How many subscriptions a unit may make, of both kinds together.
pub const MOST_SUBS: u32 = 64;

/// How many units a unit may make.
pub const MOST_UNITS: u32 = 64;

/// How many numbers the path of a unit may have.
pub const MOST_PATH: usize = 8;

/// How many events, and how many tags, a unit may number.
pub const MOST_NUMBERS: u32 = 4_294_967_295;
