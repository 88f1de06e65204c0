//! The order of lists of numbers.
ghost use Rattle.std.specs.Prelude.{◌≡◌};
ghost use Rattle.std.specs.Cmp.Lexicographic.{slice_cmp};
ghost use Rattle.std.specs.Ordering.{nat_cmp};

use std::cmp::Ordering;

/// Compares lists of numbers: the first that differs decides, and a prefix comes first. It is made
/// for short ones, as tags and paths are.
pub fn compare_numbers(a: &[u32], b: &[u32]) -> Ordering
    ensures { result ≡ slice_cmp nat_cmp a.now b.now }
{
    let mut left = a;
    let mut right = b;
    while let Some((x, more)) = left.split_first() {
        let Some((y, rest)) = right.split_first() else {
            return Ordering::Greater;
        };
        match x.cmp(y) {
            Ordering::Less => return Ordering::Less,
            Ordering::Equal => {
                left = more;
                right = rest;
            }
            Ordering::Greater => return Ordering::Greater,
        }
    }
    if right.is_empty() {
        Ordering::Equal
    } else {
        Ordering::Less
    }
}
