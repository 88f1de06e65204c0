//! A word that is a number.
ghost use Rattle.df_words.specs.Words.{IsCountIn, IsNumberIn};

use itoa::Buffer;

/// The number whose decimal digits are the whole word.
pub fn number_in(word: &str) -> Option<u64>
    ensures { IsNumberIn word.now result }
{
    let Ok(number) = word.parse::<u64>() else {
        return None;
    };
    let mut digits = Buffer::new();
    if digits.format(number) == word {
        Some(number)
    } else {
        None
    }
}

/// The number that the whole word spells, if it is from 1 to the most.
pub fn count_in(word: &str, most: u32) -> Option<u32>
    ensures { IsCountIn most word.now result }
{
    let count = number_in(word)?;
    if count == 0 || count > most as u64 {
        return None;
    }
    Some(count as u32)
}
