//! Where each child and each managed subscription was made.

ghost use Rattle.std.specs.Prelude.{◌≡◌, ◌<◌, ℕ, IfOk, None, Some, get_or, if◌then◌else◌, length};
ghost use Rattle.std.specs.Option.{option_or};
ghost use Rattle.df_why.specs.code.Tracks.{makes_at};
ghost use Rattle.df_why.specs.code.Walk.{points};

use crate::tracks::Track;
use df_memory::NoMemory;
use std::alloc::Global;

/// The place of the first entry that makes what has a number, for each of so many numbers.
pub(crate) fn where_made(
    alloc: Global,
    count: usize,
    tracks: &[Track],
) -> Result<Vec<Option<usize>>, NoMemory>
    ensures { IfOk result (λ made. (k : ℕ) → k < count →
        get_or made.items k None ≡ makes_at k tracks.now (length tracks.now)) }
{
    let mut made: Vec<Option<usize>> = Vec::new(alloc);
    made.resize(count, None)?;
    for place in 0..tracks.len() {
        note(made.as_mut_slice(), tracks[place].makes, place);
    }
    Ok(made)
}

/// Keeps the place for the number, if there is one, unless a place is kept.
fn note(made: &mut [Option<usize>], number: Option<usize>, place: usize)
    ensures size { length made.new ≡ length made.old }
    ensures noted { (k : ℕ) → k < length made.old → get_or made.new k None
        ≡ option_or (get_or made.old k None) (if points number k then Some place else None) }
{
    if let Some(number) = number {
        if number < made.len() && made[number].is_none() {
            made[number] = Some(place);
        }
    }
}
