//! What the records of a kind of file tell.

ghost use Rattle.std.specs.Prelude.{◌≡◌, ◌↔◌, IfOk, IsTrue};
ghost use Rattle.csv.specs.Records.{fields_of};

use csv::ByteRecord;
use df_memory::NoMemory;
use std::alloc::Global;

/// A kind of file: its header, and what each further record tells.
pub trait Form<T> {
    ghost use Rattle.std.specs.Prelude.{ℕ, List, Option};

    // The first record.
    ghost header: { List (List ℕ) };

    // What a further record tells, if it is in form.
    ghost told_of: { List (List ℕ) → Option T };

    /// Whether a record is the header.
    fn is_header(row: &ByteRecord) -> bool
        ensures { IsTrue result ↔ (fields_of row.now ≡ header) };

    /// What a further record tells, if it is in form.
    fn read(alloc: Global, row: &ByteRecord) -> Result<Option<T>, NoMemory>
        ensures { IfOk result (λ told. told ≡ told_of (fields_of row.now)) };
}
