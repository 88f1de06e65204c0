//! Reading the words of a command.
ghost use Rattle.std.specs.Prelude.{◌∷◌, [], codes};
ghost use Rattle.df_words.specs.Words.{IsCommandOf, texts};

use crate::command::{Command, WordsRefused};
use crate::label::label_in;
use crate::number::{count_in, number_in};
use std::alloc::Global;

/// The most ticks that are written at once.
const MOST_GENERATED: u32 = 100_000;

/// The most ticks on which a floor is run that no file tells.
const MOST_LOADED: u32 = 4_000;

/// The most workers of a floor.
const MOST_WORKERS: u32 = 16;

/// What is to be done with the file of this name, by the word before it.
fn file_command(word: &str, name: &str) -> Result<Command, WordsRefused>
    ensures { IsCommandOf (word.now ∷ name.now ∷ []) result }
{
    if name.is_empty() {
        return Err(WordsRefused::Usage);
    }
    if word == "steps" {
        Ok(Command::Steps { file: 1 })
    } else if word == "check" {
        Ok(Command::Check { journal: 1 })
    } else if word == "upgrade" {
        Ok(Command::Upgrade { journal: 1 })
    } else if word == "auction" {
        Ok(Command::Auction { orders: 1 })
    } else if word == "lint" {
        Ok(Command::Lint { script: 1 })
    } else {
        Err(WordsRefused::Usage)
    }
}

/// What is to be done with these two words, by the one before them.
fn pair_command(
    alloc: Global,
    word: &str,
    first: &str,
    second: &str,
) -> Result<Command, WordsRefused>
    ensures { IsCommandOf (word.now ∷ first.now ∷ second.now ∷ []) result }
{
    if word == "purge" {
        purge_command(alloc, first, second)
    } else if word == "gen" {
        gen_command(first, second)
    } else if word == "floor" {
        floor_command(first, second)
    } else if word == "why" {
        why_command(first, second)
    } else if word == "load" {
        load_command(first, second)
    } else {
        Err(WordsRefused::Usage)
    }
}

/// The purge of the journal of this name at the label that the word spells.
fn purge_command(alloc: Global, label: &str, journal: &str) -> Result<Command, WordsRefused>
    ensures { IsCommandOf (codes "purge" ∷ label.now ∷ journal.now ∷ []) result }
{
    if journal.is_empty() {
        return Err(WordsRefused::Usage);
    }
    let label = label_in(alloc, label)?;
    Ok(Command::Purge { label, journal: 2 })
}

/// Why an entry stands in the journal of this name, at the place that the word spells.
fn why_command(journal: &str, place: &str) -> Result<Command, WordsRefused>
    ensures { IsCommandOf (codes "why" ∷ journal.now ∷ place.now ∷ []) result }
{
    if journal.is_empty() {
        return Err(WordsRefused::Usage);
    }
    match number_in(place) {
        Some(place) => Ok(Command::Why { journal: 1, place }),
        None => Err(WordsRefused::Usage),
    }
}

/// As many ticks of the key as the words say.
fn gen_command(key: &str, count: &str) -> Result<Command, WordsRefused>
    ensures { IsCommandOf (codes "gen" ∷ key.now ∷ count.now ∷ []) result }
{
    match (number_in(key), count_in(count, MOST_GENERATED)) {
        (Some(key), Some(n)) => Ok(Command::Gen { key, n }),
        _ => Err(WordsRefused::Usage),
    }
}

/// The floor of the files of these names.
fn floor_command(config: &str, ticks: &str) -> Result<Command, WordsRefused>
    ensures { IsCommandOf (codes "floor" ∷ config.now ∷ ticks.now ∷ []) result }
{
    if config.is_empty() || ticks.is_empty() {
        return Err(WordsRefused::Usage);
    }
    Ok(Command::Floor {
        config: 1,
        ticks: 2,
    })
}

/// What is to be done with two words, by the one before them and the option and number behind them.
fn option_command(
    word: &str,
    first: &str,
    second: &str,
    option: &str,
    count: &str,
) -> Result<Command, WordsRefused>
    ensures { IsCommandOf
        (word.now ∷ first.now ∷ second.now ∷ option.now ∷ count.now ∷ []) result }
{
    if word == "floor" && option == "--workers" {
        workers_command(first, second, count)
    } else {
        Err(WordsRefused::Usage)
    }
}

/// The floor of the files of these names, with as many workers as the word says.
fn workers_command(config: &str, ticks: &str, count: &str) -> Result<Command, WordsRefused>
    ensures { IsCommandOf (codes "floor" ∷ config.now ∷ ticks.now ∷ codes "--workers"
        ∷ count.now ∷ []) result }
{
    if config.is_empty() || ticks.is_empty() {
        return Err(WordsRefused::Usage);
    }
    match count_in(count, MOST_WORKERS) {
        Some(workers) => Ok(Command::FloorWorkers {
            config: 1,
            ticks: 2,
            workers,
        }),
        None => Err(WordsRefused::Usage),
    }
}

/// A floor on as many ticks of the key as the words say.
fn load_command(key: &str, count: &str) -> Result<Command, WordsRefused>
    ensures { IsCommandOf (codes "load" ∷ key.now ∷ count.now ∷ []) result }
{
    match (number_in(key), count_in(count, MOST_LOADED)) {
        (Some(key), Some(n)) => Ok(Command::Load { key, n }),
        _ => Err(WordsRefused::Usage),
    }
}

/// What the words behind the program's name ask for.
pub fn read_words(alloc: Global, words: &[String]) -> Result<Command, WordsRefused>
    ensures { IsCommandOf (texts words.now) result }
{
    match words {
        [word, name] => file_command(word.as_str(), name.as_str()),
        [word, first, second] => {
            pair_command(alloc, word.as_str(), first.as_str(), second.as_str())
        }
        [word, first, second, option, count] => option_command(
            word.as_str(),
            first.as_str(),
            second.as_str(),
            option.as_str(),
            count.as_str(),
        ),
        _ => Err(WordsRefused::Usage),
    }
}
