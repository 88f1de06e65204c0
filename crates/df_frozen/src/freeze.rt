//! Freezing a value.

ghost use Rattle.std.specs.Prelude.{◌≡◌, IfOk, IfErr, OnOk};
ghost use Rattle.df_frozen.specs.Limits.{IsWithinLimits, IsFreezeCause};
ghost use Rattle.df_frozen.specs.Value.{plain};

use crate::count::Counts;
use crate::frozen::Frozen;
use crate::value::Value;
use std::alloc::Global;
use std::error::Error;
use std::fmt;

/// How many nodes a frozen value has at most.
pub const MOST_NODES: u64 = 4096;

/// How many bytes a frozen value has at most in words, blobs and the names of maps.
pub const MOST_BYTES: u64 = 65536;

/// How deep a frozen value nests at most.
pub const MOST_DEPTH: u64 = 32;

/// Why a value is not frozen.
#[derive(Clone, Copy, Debug, PartialEq, Eq)]
pub enum FreezeCause {
    /// Over [`MOST_NODES`], [`MOST_BYTES`] or [`MOST_DEPTH`]. Counts stop at the greatest u64.
    TooLarge { nodes: u64, bytes: u64, depth: u64 },
    NoMemory,
}

impl fmt::Display for FreezeCause {
    fn fmt<W: fmt::Write>(&self, f: &mut fmt::Formatter<W>) -> fmt::Result {
        match self {
            FreezeCause::TooLarge {
                nodes,
                bytes,
                depth,
            } => write!(
                f,
                "{nodes} nodes, {bytes} bytes and depth {depth} are too large"
            ),
            FreezeCause::NoMemory => f.write_str("out of memory"),
        }
    }
}

impl Error for FreezeCause {}

/// A value that is not frozen, given back.
#[derive(Drop)]
pub struct Unfrozen {
    pub value: Value,
    pub cause: FreezeCause,
}

impl fmt::Debug for Unfrozen {
    fn fmt<W: fmt::Write>(&self, f: &mut fmt::Formatter<W>) -> fmt::Result {
        fmt::Debug::fmt(&self.cause, f)
    }
}

impl fmt::Display for Unfrozen {
    fn fmt<W: fmt::Write>(&self, f: &mut fmt::Formatter<W>) -> fmt::Result {
        fmt::Display::fmt(&self.cause, f)
    }
}

impl Error for Unfrozen {}

impl Value {
    /// Freezes the value, or gives it back.
    pub fn freeze(self, alloc: Global) -> Result<Frozen, Unfrozen>
        ensures frozen { IfOk result (λ frozen. frozen ≡ plain self) }
        ensures within { OnOk result (IsWithinLimits (plain self)) }

        ensures back { IfErr result (λ e. e.value ≡ self) }
        ensures cause { IfErr result (λ e. IsFreezeCause (plain self) e.cause) }
    {
        let Ok(counts) = Counts::of(alloc, &self) else {
            return Err(Unfrozen {
                value: self,
                cause: FreezeCause::NoMemory,
            });
        };
        let Counts {
            nodes,
            bytes,
            depth,
        } = counts;
        if nodes > MOST_NODES || bytes > MOST_BYTES || depth > MOST_DEPTH {
            return Err(Unfrozen {
                value: self,
                cause: FreezeCause::TooLarge {
                    nodes,
                    bytes,
                    depth,
                },
            });
        }
        Frozen::new(alloc, self)
    }
}
