//! Counting the nodes and bytes of a value of any depth, and how deep it is.

ghost use Rattle.std.specs.Prelude.{◌≡◌, ◌+◌, max, IfOk, OnOk};
ghost use Rattle.df_frozen.specs.Plain.{node_count, byte_count, depth};
ghost use Rattle.df_frozen.specs.code.Counting.{own_byte_count, left, rows_of, pushed};
ghost use Rattle.df_frozen.specs.Limits.{counted};
ghost use Rattle.df_frozen.specs.Value.{plain};

use crate::row::Row;
use crate::value::Value;
use df_memory::NoMemory;
use std::alloc::Global;

// Counts that stop at the greatest u64.
#[derive(Clone, Copy)]
pub(crate) struct Counts {
    pub nodes: u64,
    pub bytes: u64,
    pub depth: u64,
}

impl Counts {
    pub(crate) fn of(alloc: Global, value: &Value) -> Result<Counts, NoMemory>
        ensures nodes { IfOk result (λ c. c.nodes ≡ counted (node_count (plain value.now))) }
        ensures bytes { IfOk result (λ c. c.bytes ≡ counted (byte_count (plain value.now))) }
        ensures depth { IfOk result (λ c. c.depth ≡ counted (depth (plain value.now))) }
    {
        let mut counts = Counts {
            nodes: 0,
            bytes: 0,
            depth: 0,
        };
        counts.add(value, 0);
        let mut rows: Vec<(Row<'_>, u64)> = Vec::new(alloc);
        push_row(&mut rows, value.inner(), 1)?;
        while let Some((values, around)) = rows.pop() {
            let Some((first, rest)) = values.split_first() else {
                continue;
            };
            counts.add(first, around);
            push_row(&mut rows, rest, around)?;
            push_row(&mut rows, first.inner(), around.saturating_add(1))?;
        }
        Ok(counts)
    }

    // Adds a node that lies in so many lists and maps, without the values in it.
    fn add(&mut self, value: &Value, around: u64)
        ensures nodes { self.new.nodes ≡ counted (self.old.nodes + 1) }
        ensures bytes { self.new.bytes
            ≡ counted (self.old.bytes + own_byte_count (plain value.now)) }
        ensures depth { self.new.depth ≡ max self.old.depth (counted (around + 1)) }
    {
        self.nodes = self.nodes.saturating_add(1);
        self.bytes = self.bytes.saturating_add(value.own_byte_count());
        self.depth = self.depth.max(around.saturating_add(1));
    }
}

// Adds a row, unless it is empty.
fn push_row<'a>(rows: &mut Vec<(Row<'a>, u64)>, row: Row<'a>, around: u64) -> Result<(), NoMemory>
    ensures { OnOk result
        (rows_of rows.new.items ≡ pushed (rows_of rows.old.items) (left row.entry) around) }
{
    let Some(_) = row.split_first() else {
        return Ok(());
    };
    rows.push((row, around))?;
    Ok(())
}
