//! Reading a file of records.

ghost use Rattle.std.specs.Prelude.{◌≡◌, ◌<◌, IfErr, IfOk, length};
ghost use Rattle.csv.specs.Records.{fields_of};
ghost use Rattle.df_records.specs.RecordFile.{IsFileOf};
ghost use Rattle.df_records.specs.Refusing.{IsRightRefusal};
ghost use Rattle.df_records.specs.code.Taking.{TakesRecord};

use crate::form::Form;
use csv::{ByteRecord, ReaderBuilder};
use df_memory::NoMemory;
use std::alloc::{AllocError, AllocFailed, Global};

/// Why a file of records isn't read.
#[derive(Debug, Drop)]
pub enum RecordsRefused {
    /// The first record that isn't in form, by its number from 1.
    BadRecord { line: u64 },
    NoMemory,
}

impl From<NoMemory> for RecordsRefused {
    ghost use Rattle.std.specs.Prelude.{◌≡◌};
    ghost use Rattle.df_records.specs.declared.records.RecordsRefused.TheVariants as refused;

    ghost from_gives = { λ _ r. r ≡ refused.NoMemory };

    fn from(_error: NoMemory) -> RecordsRefused {
        RecordsRefused::NoMemory
    }
}

/// What the records of a file tell, one after another, behind its header.
pub fn read_records<T: Drop, F: Form<T>>(
    alloc: Global,
    bytes: &[u8],
) -> Result<Vec<T>, RecordsRefused>
    ensures read { IfOk result (λ v. IsFileOf F.header F.told_of bytes.now v.items) }
    ensures few { IfOk result (λ v. length v.items < length bytes.now) }
    ensures refused { IfErr result (IsRightRefusal F.header F.told_of bytes.now) }
{
    let mut reader = ReaderBuilder::new()
        .has_headers(false)
        .flexible(true)
        .from_reader(alloc, bytes);
    let mut row = ByteRecord::new(alloc);
    let mut told = Vec::new(alloc);
    for line in 1..u64::MAX {
        let Ok(found) = reader.read_byte_record(&mut row) else {
            return Err(RecordsRefused::NoMemory);
        };
        if !found {
            if line > 1 {
                return Ok(told);
            }
            return Err(RecordsRefused::BadRecord { line });
        }
        let good = take_record::<T, F>(&mut told, &row, line == 1)?;
        if !good {
            return Err(RecordsRefused::BadRecord { line });
        }
    }
    Err(RecordsRefused::NoMemory)
}

/// Whether a record is in form: the header where it is the first, or a further one, and what that
/// tells is appended.
fn take_record<T: Drop, F: Form<T>>(
    told: &mut Vec<T>,
    row: &ByteRecord,
    first: bool,
) -> Result<bool, NoMemory>
    ensures { IfOk result (TakesRecord F.header F.told_of first (fields_of row.now)
        told.old.items told.new.items) }
{
    if first {
        return Ok(F::is_header(row));
    }
    let Some(one) = F::read(*told.allocator(), row)? else {
        return Ok(false);
    };
    told.push(one)?;
    Ok(true)
}
