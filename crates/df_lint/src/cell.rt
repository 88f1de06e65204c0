//! What a root's family may hold over each tag, as far as it is found.
ghost use Rattle.std.specs.Prelude.{◌≡◌, false, length, true};
ghost use Rattle.df_lint.specs.code.Cells.{Grows, gives, has, is_bar, no_bar, pass_row, passed};

use df_label::Right;

/// What a root's family may hold over one tag, and whether the root's label asks for its integrity.
#[derive(Clone, Copy, Debug)]
pub struct Cell {
    pub asked: bool,
    pub plus: bool,
    pub minus: bool,
    pub plus_auth: bool,
    pub minus_auth: bool,
}

impl Cell {
    pub fn has(self, right: Right) -> bool
        ensures { result ≡ has self right }
    {
        match right {
            Right::Plus => self.plus,
            Right::Minus => self.minus,
            Right::PlusAuth => self.plus_auth,
            Right::MinusAuth => self.minus_auth,
        }
    }
}

/// Gives the taker what the giver may attach. Whether that was anything new.
pub fn pass_on(giver: &[Cell], taker: &mut Vec<Cell>) -> bool
    requires { length giver.now ≡ length taker.old.items }
    ensures passed { taker.new.items ≡ pass_row giver.now taker.old.items }
    ensures gains { result ≡ true → Grows taker.old.items taker.new.items }
    ensures same { result ≡ false → taker.new.items ≡ taker.old.items }
{
    let mut gained = false;
    for place in 0..giver.len() {
        let given = giver[place];
        let had = taker[place];
        if gives(given, had) {
            gained = true;
        }
        taker[place] = passed(given, had);
    }
    gained
}

/// Whether the giver may attach what the taker lacks.
fn gives(giver: Cell, taker: Cell) -> bool
    ensures { result ≡ gives giver taker }
{
    (giver.plus_auth && !(taker.plus && taker.plus_auth))
        || (giver.minus_auth && !(taker.minus && taker.minus_auth))
}

/// The taker's with what the giver may attach.
fn passed(giver: Cell, taker: Cell) -> Cell
    ensures { result ≡ passed giver taker }
{
    Cell {
        asked: taker.asked,
        plus: taker.plus || giver.plus_auth,
        minus: taker.minus || giver.minus_auth,
        plus_auth: taker.plus_auth || giver.plus_auth,
        minus_auth: taker.minus_auth || giver.minus_auth,
    }
}

/// Whether no tag bars the taker's family from what the giver's writes.
pub fn reaches(giver: &[Cell], taker: &[Cell]) -> bool
    requires { length giver.now ≡ length taker.now }
    ensures { result ≡ no_bar giver.now taker.now }
{
    for place in 0..giver.len() {
        if is_bar(giver[place], taker[place]) {
            return false;
        }
    }
    true
}

/// Whether the taker asks for the tag and can't take it out, nor the giver write with it.
fn is_bar(giver: Cell, taker: Cell) -> bool
    ensures { result ≡ is_bar giver taker }
{
    taker.asked && !(taker.minus || (giver.asked || giver.plus))
}
