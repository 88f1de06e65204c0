//! Text lines: as they are or with escapes, and the hole that a run fills.

use crate::stop::Stop;

/// What a run of a sweep fills.
const HOLE: &str = "%%";

/// A text line of a table.
#[derive(Clone, Copy, Debug)]
pub enum Text<'a> {
    /// As it is, and a line feed.
    Plain(&'a str),
    /// With escapes, and without a line feed.
    Spelled(&'a str),
    /// So many times, with escapes and without a line feed.
    Repeated(usize, &'a str),
}

/// What the byte before leaves to be read.
#[derive(Clone, Copy)]
enum Escape {
    None,
    Begun,
    Hex,
    HexOf(u8),
}

/// The number that a digit stands for.
fn digit_of(byte: u8) -> Option<u8> {
    match byte {
        b'0'..=b'9' => Some(byte - b'0'),
        b'a'..=b'f' => Some(byte - b'a' + 10),
        _ => None,
    }
}

/// What a letter behind a backslash stands for.
fn letter_of(byte: u8) -> Option<u8> {
    match byte {
        b'n' => Some(b'\n'),
        b'r' => Some(b'\r'),
        b't' => Some(b'\t'),
        b'\\' => Some(b'\\'),
        _ => None,
    }
}

impl Escape {
    /// What is left behind one more byte, and the byte that is read with it. None where no escape
    /// goes on so.
    fn next(self, byte: u8) -> Option<(Escape, Option<u8>)> {
        match self {
            Escape::None if byte == b'\\' => Some((Escape::Begun, None)),
            Escape::None => Some((Escape::None, Some(byte))),
            Escape::Begun if byte == b'x' => Some((Escape::Hex, None)),
            Escape::Begun => Some((Escape::None, Some(letter_of(byte)?))),
            Escape::Hex => Some((Escape::HexOf(digit_of(byte)?), None)),
            Escape::HexOf(high) => Some((Escape::None, Some((high << 4) | digit_of(byte)?))),
        }
    }
}

/// Whether each escape of the text is whole.
pub fn is_spelled(text: &str) -> bool {
    let mut state = Escape::None;
    for byte in text.as_bytes() {
        match state.next(*byte) {
            Some((after, _)) => state = after,
            None => return false,
        }
    }
    matches!(state, Escape::None)
}

/// Appends the bytes that a text with escapes stands for, up to an escape that isn't one.
fn append_spelled(text: &str, out: &mut Vec<u8>) -> Result<(), Stop> {
    let mut state = Escape::None;
    for byte in text.as_bytes() {
        let Some((after, read)) = state.next(*byte) else {
            return Ok(());
        };
        state = after;
        if let Some(read) = read {
            out.push(read)?;
        }
    }
    Ok(())
}

/// Appends a piece of the body of a line.
fn append_piece(text: Text<'_>, piece: &str, out: &mut Vec<u8>) -> Result<(), Stop> {
    match text {
        Text::Plain(_) => Ok(out.extend_from_slice(piece.as_bytes())?),
        Text::Spelled(_) | Text::Repeated(_, _) => append_spelled(piece, out),
    }
}

/// Appends the body of the line once. Its holes are filled, where there is something to fill them.
fn append_once(text: Text<'_>, fill: Option<&[u8]>, out: &mut Vec<u8>) -> Result<(), Stop> {
    let (Text::Plain(body) | Text::Spelled(body) | Text::Repeated(_, body)) = text;
    let Some(fill) = fill else {
        return append_piece(text, body, out);
    };
    let mut is_first = true;
    for piece in body.split(HOLE) {
        if !is_first {
            out.extend_from_slice(fill)?;
        }
        is_first = false;
        append_piece(text, piece, out)?;
    }
    Ok(())
}

/// How many times the body of the line stands.
fn times_of(text: Text<'_>) -> usize {
    match text {
        Text::Plain(_) | Text::Spelled(_) => 1,
        Text::Repeated(count, _) => count,
    }
}

/// Appends the body of the line, without the line feed of a plain one.
pub fn append_body(text: Text<'_>, fill: Option<&[u8]>, out: &mut Vec<u8>) -> Result<(), Stop> {
    for _ in 0..times_of(text) {
        append_once(text, fill, out)?;
    }
    Ok(())
}

/// Appends the line.
pub fn append_line(text: Text<'_>, fill: Option<&[u8]>, out: &mut Vec<u8>) -> Result<(), Stop> {
    append_body(text, fill, out)?;
    if matches!(text, Text::Plain(_)) {
        out.push(b'\n')?;
    }
    Ok(())
}
