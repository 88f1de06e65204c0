//! The lines of a table, and the rows that they make.

use crate::stop::Stop;
use crate::text::{Text, is_spelled};
use std::alloc::Global;

/// Where the bytes of a file or of the output are.
#[derive(Clone, Copy, Debug)]
pub enum Source<'a> {
    /// In this file beside the table.
    Path(&'a str),
    /// In what the run of these words writes, over the files of the row up to there.
    Run(&'a str),
    /// In the text lines that follow, so many times.
    Lines(usize),
}

/// How much of what is written the output tells.
#[derive(Clone, Copy, Debug)]
pub enum Share {
    Whole,
    Beginning,
    End,
}

/// Which read or write fails.
#[derive(Clone, Copy, Debug)]
pub enum Fault {
    Read(u64),
    Write(u64),
}

/// A line of a table.
#[derive(Clone, Copy, Debug)]
pub enum Line<'a> {
    Row(&'a str),
    Words(&'a str),
    Word(&'a str),
    File(&'a str, Source<'a>),
    Status(&'a str),
    Output(Share, Source<'a>),
    /// The most bytes that a write takes.
    Takes(usize),
    Fails(Fault),
    /// Each of the first reads or writes, up to this one, fails in a run of its own.
    EachFails(Fault),
    /// The text lines that follow are runs with this status.
    Each(&'a str),
    Fronts {
        first: usize,
        last: usize,
        status: &'a str,
    },
    Text(Text<'a>),
}

impl<'a> Line<'a> {
    /// Whether a text line may stand behind this one.
    fn takes_text(self) -> bool {
        matches!(
            self,
            Line::File(_, Source::Lines(_))
                | Line::Output(_, Source::Lines(_))
                | Line::Each(_)
                | Line::Text(_)
        )
    }
}

/// What stands behind `file`.
fn file_line(rest: &str) -> Option<Line<'_>> {
    if let Some((name, path)) = rest.split_once(" from ") {
        return Some(Line::File(name, Source::Path(path)));
    }
    if let Some((name, words)) = rest.split_once(" written by ") {
        return Some(Line::File(name, Source::Run(words)));
    }
    if let Some((name, times)) = rest.split_once(" repeats ") {
        return Some(Line::File(name, Source::Lines(times.parse().ok()?)));
    }
    Some(Line::File(rest, Source::Lines(1)))
}

/// What stands behind `output` and its like.
fn output_line(share: Share, rest: &str) -> Option<Line<'_>> {
    if rest.is_empty() {
        return Some(Line::Output(share, Source::Lines(1)));
    }
    if let Some(words) = rest.strip_prefix("written by ") {
        return Some(Line::Output(share, Source::Run(words)));
    }
    Some(Line::Output(share, Source::Path(rest.strip_prefix("from ")?)))
}

/// What stands behind `fronts`.
fn fronts_line(rest: &str) -> Option<Line<'_>> {
    let (first, behind) = rest.split_once(" ")?;
    let (last, status) = behind.split_once(" ")?;
    Some(Line::Fronts {
        first: first.parse().ok()?,
        last: last.parse().ok()?,
        status,
    })
}

/// A line that begins with this word.
fn line_of<'a>(word: &'a str, rest: &'a str) -> Option<Line<'a>> {
    match word {
        "row" => Some(Line::Row(rest)),
        "words" => Some(Line::Words(rest)),
        "word" => Some(Line::Word(rest)),
        "file" => file_line(rest),
        "status" => Some(Line::Status(rest)),
        "output" => output_line(Share::Whole, rest),
        "output_begins" => output_line(Share::Beginning, rest),
        "output_ends" => output_line(Share::End, rest),
        "takes" => Some(Line::Takes(rest.parse().ok()?)),
        "read_fails" => Some(Line::Fails(Fault::Read(rest.parse().ok()?))),
        "write_fails" => Some(Line::Fails(Fault::Write(rest.parse().ok()?))),
        "each_read_fails" => Some(Line::EachFails(Fault::Read(rest.parse().ok()?))),
        "each_write_fails" => Some(Line::EachFails(Fault::Write(rest.parse().ok()?))),
        "each" => Some(Line::Each(rest)),
        "fronts" => fronts_line(rest),
        _ => None,
    }
}

/// What stands behind `*`.
fn repeated_line(rest: &str) -> Option<Line<'_>> {
    let (count, body) = rest.split_once(" ")?;
    let count = count.parse().ok()?;
    is_spelled(body).then_some(Line::Text(Text::Repeated(count, body)))
}

/// The line that these bytes are, where they are one.
fn read_line(text: &str) -> Option<Line<'_>> {
    if let Some(body) = text.strip_prefix("|") {
        return Some(Line::Text(Text::Plain(body)));
    }
    if let Some(body) = text.strip_prefix("~") {
        return is_spelled(body).then_some(Line::Text(Text::Spelled(body)));
    }
    if let Some(rest) = text.strip_prefix("*") {
        return repeated_line(rest);
    }
    let (word, rest) = text.split_once(" ").unwrap_or((text, ""));
    line_of(word, rest)
}

/// Whether a line may stand behind these.
fn is_in_place(before: &[Line<'_>], line: Line<'_>) -> bool {
    match (before.last(), line) {
        (None, Line::Row(_)) => true,
        (None, _) => false,
        (Some(last), Line::Text(_)) => last.takes_text(),
        (Some(_), _) => true,
    }
}

/// Whether a line says nothing.
fn is_comment(text: &str) -> bool {
    text.is_empty() || text == "#" || text.starts_with("# ")
}

/// The lines of a table but for comments.
pub fn read_table<'a>(alloc: Global, text: &'a str) -> Result<Vec<Line<'a>>, Stop> {
    let mut lines = Vec::new(alloc);
    for (place, line) in text.split("\n").enumerate() {
        if is_comment(line) {
            continue;
        }
        match read_line(line) {
            Some(read) if is_in_place(lines.as_slice(), read) => lines.push(read)?,
            _ => return Err(Stop::Line(place.saturating_add(1))),
        }
    }
    Ok(lines)
}

/// The text lines at the front of these.
pub fn texts_of<'a>(lines: &'a [Line<'a>]) -> &'a [Line<'a>] {
    let count = lines
        .iter()
        .take_while(|line| matches!(line, Line::Text(_)))
        .count();
    lines.get(..count).unwrap_or(lines)
}

/// The lines up to the next row.
pub fn row_of<'a>(lines: &'a [Line<'a>]) -> &'a [Line<'a>] {
    let count = lines
        .iter()
        .take_while(|line| !matches!(line, Line::Row(_)))
        .count();
    lines.get(..count).unwrap_or(lines)
}
