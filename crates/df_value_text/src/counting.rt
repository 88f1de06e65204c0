//! Counting a value's nodes, bytes and depth from left to right.
ghost use Rattle.std.specs.Prelude.{◌≡◌, ◌<◌, ◌≤◌, ◌+◌, length, drop, MatchBool, true};
ghost use Rattle.df_value_text.specs.Counting.{AreWithin, IsCounted, IsOver, NeverOver, TellsOver, closed, nested, start, walk};
ghost use Rattle.df_value_text.specs.code.Short.{open_count};
ghost use Rattle.df_value_text.specs.declared.place.Place.TheVariants as place;

use crate::brackets::Brackets;
use crate::place::{Place, begins, closes, next, weight};
use df_frozen::{MOST_BYTES, MOST_DEPTH, MOST_NODES};

/// A walk over bytes, and what it has counted.
#[derive(Drop)]
pub struct Walk {
    place: Place,
    brackets: Brackets,
    nodes: u64,
    bytes: u64,
    deep: u64,
}

impl Walk {
    fn start() -> Walk
        ensures { result ≡ start }
    {
        Walk {
            place: Place::Before,
            brackets: Brackets::none(),
            nodes: 0,
            bytes: 0,
            deep: 0,
        }
    }

    fn is_over(&self) -> bool
        ensures { MatchBool result (IsOver self.now) (AreWithin self.now) }
    {
        self.nodes > MOST_NODES || self.bytes > MOST_BYTES || self.deep > MOST_DEPTH
    }

    fn is_done(&self) -> bool
        ensures { result ≡ true → self.now.place ≡ place.Done }
    {
        matches!(self.place, Place::Done)
    }

    /// Counts the byte, and goes behind it.
    fn step(&mut self, byte: u8)
        requires within { AreWithin self.old }
        requires counted { IsCounted self.old }
        ensures { self.new ≡ walk self.old byte }
    {
        if begins(self.place, byte) {
            self.nodes += 1;
            self.deep = self.deep.max(self.brackets.len() + 1);
        }
        self.bytes += weight(self.place, byte);
        let next = next(self.place, &self.brackets, byte);
        nest(&mut self.brackets, self.place, byte);
        self.place = next;
    }
}

/// Closes the innermost bracket, where the byte does so.
fn close(brackets: &mut Brackets, byte: u8)
    ensures { brackets.new ≡ closed brackets.old byte }
{
    if closes(byte) {
        brackets.pop();
    }
}

/// Opens or closes a bracket, as the byte at the place does.
fn nest(brackets: &mut Brackets, place: Place, byte: u8)
    requires { length brackets.old ≤ 32 }
    ensures { brackets.new ≡ nested place brackets.old byte }
{
    match place {
        Place::Before => match byte {
            b'[' => brackets.push(false),
            b'(' => brackets.push(true),
            _ => close(brackets, byte),
        },
        Place::Number | Place::Name | Place::Behind => close(brackets, byte),
        _ => {}
    }
}

/// How many brackets open in the text.
fn open_count(text: &[u8]) -> usize
    ensures value { result ≡ open_count text.now }
    ensures few { result ≤ length text.now }
{
    let mut count = 0;
    for byte in text {
        if *byte == b'[' || *byte == b'(' {
            count += 1;
        }
    }
    count
}

/// Whether fewer brackets open in the text than may nest; there are no more than it has bytes.
#[tactic(auto, using(crate::proofs::CountingSteps::opens_at_most))]
fn opens_few(text: &[u8]) -> bool
    ensures { result ≡ true → open_count text.now < 32 }
{
    (text.len() as u64) < MOST_DEPTH || (open_count(text) as u64) < MOST_DEPTH
}

/// Whether the text is so short, and opens so few brackets, that no count is passed in it.
#[tactic(auto, using(crate::proofs::CountingSteps::never_small))]
pub(crate) fn is_small(text: &[u8]) -> bool
    ensures { result ≡ true → NeverOver text.now }
{
    text.len() as u64 <= MOST_NODES && opens_few(text)
}

/// The place of the first byte, from the place on, by which a count of freezing is passed; none
/// where no count is passed up to the end of the value or of the bytes.
pub(crate) fn over_at(bytes: &[u8], at: usize) -> Option<usize>
    requires { at ≤ length bytes.now }
    ensures { TellsOver bytes.now at result }
{
    let mut walk = Walk::start();
    let mut place = at;
    while place < bytes.len() && !walk.is_done() {
        walk.step(bytes[place]);
        if walk.is_over() {
            return Some(place);
        }
        place += 1;
    }
    None
}
