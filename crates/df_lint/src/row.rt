//! What a root's family may hold, as far as it is found: a cell for each tag.
ghost use Rattle.std.specs.Prelude.{◌≡◌, ◌<◌, IfOk, OnOk, false, length, slice_set, true};
ghost use Rattle.std.specs.List.{list_any};
ghost use Rattle.df_lint.specs.code.Cells.{Grows, attaches, cell_at, cells_at, no_bar, pass_row};

use crate::cell::{Cell, pass_on, reaches};
use df_memory::NoMemory;
use std::alloc::Global;
use std::marker::Model;
use std::mem;

/// A cell for each tag of the start. A contract sees it as the list of these.
#[derive(Drop)]
pub struct Row {
    cells: Vec<Cell>,
}

impl Model for Row {
    ghost use Rattle.std.specs.Prelude.{List};
    ghost use Rattle.df_lint.specs.declared.cell.Cell.{Cell};

    ghost Value = { List Cell };

    ghost view = { λ r. r.cells.items };
}

impl Row {
    pub fn new(cells: Vec<Cell>) -> Row
        ensures { result ≡ cells.items }
    {
        Row { cells }
    }

    pub fn cells(&self) -> &[Cell]
        ensures { result.now ≡ self.now }
    {
        self.cells.as_slice()
    }

    /// Whether something of it may be passed on.
    fn attaches(&self) -> bool
        ensures { result ≡ list_any attaches self.now }
    {
        self.cells
            .iter()
            .any(|cell| cell.plus_auth || cell.minus_auth)
    }

    /// Takes what the giver may attach. Whether that was anything new.
    fn take(&mut self, giver: &[Cell]) -> bool
        requires { length giver.now ≡ length self.old }
        ensures passed { self.new ≡ pass_row giver.now self.old }
        ensures gains { result ≡ true → Grows self.old self.new }
        ensures same { result ≡ false → self.new ≡ self.old }
    {
        pass_on(giver, &mut self.cells)
    }

    fn copy(&self, alloc: Global) -> Result<Row, NoMemory>
        ensures { IfOk result (λ r. r ≡ self.now) }
    {
        let mut cells = Vec::with_capacity(alloc, self.cells.len())?;
        for cell in self.cells() {
            cells.push(*cell)?;
        }
        Ok(Row { cells })
    }
}

/// Gives one row what another may attach. Whether that was anything new.
pub fn pass_between(
    alloc: Global,
    rows: &mut Vec<Row>,
    from: usize,
    to: usize,
) -> Result<bool, NoMemory>
    requires from { from < length rows.old.items }
    requires to { to < length rows.old.items }
    requires many { length (cells_at rows.old.items from) ≡ length (cells_at rows.old.items to) }
    ensures passed { OnOk result (rows.new.items ≡ slice_set rows.old.items to
        (pass_row (cells_at rows.old.items from) (cells_at rows.old.items to))) }
    ensures gains { IfOk result (λ b. b ≡ true → Grows (cells_at rows.old.items to)
        (pass_row (cells_at rows.old.items from) (cells_at rows.old.items to))) }
    ensures same { IfOk result (λ b. b ≡ false → rows.new.items ≡ rows.old.items) }
{
    if from == to {
        let giver = rows[from].copy(alloc)?;
        return Ok(rows[to].take(giver.cells()));
    }
    let mut taker = mem::replace(&mut rows[to], Row::new(Vec::new(alloc)));
    let gained = taker.take(rows[from].cells());
    rows[to] = taker;
    Ok(gained)
}

/// Whether something of the row at a place may be passed on.
pub fn attaches_at(rows: &Vec<Row>, place: usize) -> bool
    requires { place < length rows.now.items }
    ensures { result ≡ list_any attaches (cells_at rows.now.items place) }
{
    rows[place].attaches()
}

/// Whether no tag bars one row's family from what the other's writes.
pub fn reaches_between(rows: &Vec<Row>, from: usize, to: usize) -> bool
    requires from { from < length rows.now.items }
    requires to { to < length rows.now.items }
    requires many { length (cells_at rows.now.items from) ≡ length (cells_at rows.now.items to) }
    ensures { result ≡ no_bar (cells_at rows.now.items from) (cells_at rows.now.items to) }
{
    reaches(rows[from].cells(), rows[to].cells())
}

/// The cell of a root and a tag's place.
pub fn cell_of(rows: &Vec<Row>, root: usize, place: usize) -> Cell
    requires root { root < length rows.now.items }
    requires place { place < length (cells_at rows.now.items root) }
    ensures { result ≡ cell_at (cells_at rows.now.items root) place }
{
    rows[root].cells()[place]
}
