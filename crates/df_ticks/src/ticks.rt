//! Reading a tick file.

ghost use Rattle.std.specs.Prelude.{◌<◌, All, IfErr, IfOk, length};
ghost use Rattle.df_ticks.specs.TickFile.{IsTickFile, IsTick};
ghost use Rattle.df_ticks.specs.Refusing.{IsRightRefusal};

use crate::record::TickForm;
use crate::tick::Tick;
use df_memory::NoMemory;
use df_records::{RecordsRefused, read_records};
use std::alloc::Global;
use std::error::Error;
use std::fmt;

/// Why a file of ticks isn't read.
#[derive(Debug, Drop)]
pub enum TicksRefused {
    /// The first record that isn't in form, by its number from 1.
    BadTick { line: u64 },
    NoMemory,
}

impl fmt::Display for TicksRefused {
    fn fmt<W: fmt::Write>(&self, f: &mut fmt::Formatter<W>) -> fmt::Result {
        match self {
            TicksRefused::BadTick { line } => write!(f, "record {line} is no tick"),
            TicksRefused::NoMemory => f.write_str("out of memory"),
        }
    }
}

impl Error for TicksRefused {}

impl From<NoMemory> for TicksRefused {
    ghost use Rattle.std.specs.Prelude.{◌≡◌};
    ghost use Rattle.df_ticks.specs.declared.ticks.TicksRefused.TheVariants as refused;

    ghost from_gives = { λ _ r. r ≡ refused.NoMemory };

    fn from(_error: NoMemory) -> TicksRefused {
        TicksRefused::NoMemory
    }
}

/// The ticks of a file: a header, and then a record for each.
pub fn read_ticks(alloc: Global, bytes: &[u8]) -> Result<Vec<Tick>, TicksRefused>
    ensures read { IfOk result (λ v. IsTickFile bytes.now v.items) }
    ensures in_form { IfOk result (λ v. All IsTick v.items) }
    ensures few { IfOk result (λ v. length v.items < length bytes.now) }
    ensures refused { IfErr result (IsRightRefusal bytes.now) }
{
    match read_records::<Tick, TickForm>(alloc, bytes) {
        Ok(ticks) => Ok(ticks),
        Err(RecordsRefused::BadRecord { line }) => Err(TicksRefused::BadTick { line }),
        Err(RecordsRefused::NoMemory) => Err(TicksRefused::NoMemory),
    }
}
