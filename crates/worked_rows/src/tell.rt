//! What is printed of a run that comes out otherwise.

use crate::case::Case;
use crate::runs::Run;
use crate::stop::Stop;
use crate::table::Fault;
use crate::text::Text;
use df_run::Status;

/// The place of the first byte that differs.
fn difference(wanted: &[u8], given: &[u8]) -> usize {
    wanted
        .iter()
        .zip(given.iter())
        .take_while(|(wanted, given)| wanted == given)
        .count()
}

/// The number of the line in which this place is.
fn line_at(text: &[u8], place: usize) -> usize {
    let before = text.get(..place).unwrap_or(text);
    let feeds = before.iter().filter(|byte| **byte == b'\n').count();
    feeds.saturating_add(1)
}

/// The bytes from this place on, up to the end of the line, where they are text.
fn rest_of_line(text: &[u8], place: usize) -> &str {
    let rest = text.get(place..).unwrap_or(&[]);
    let count = rest.iter().take_while(|byte| **byte != b'\n').count();
    str::from_utf8(rest.get(..count).unwrap_or(rest)).unwrap_or("(no text)")
}

/// Prints which run it is.
fn print_run(rt: HostRuntime, run: Run<'_>) -> Result<(), Stop> {
    if let Some(Text::Plain(body) | Text::Spelled(body) | Text::Repeated(_, body)) = run.fill {
        print!(rt; " with {body}")?;
    }
    if let Some(length) = run.front {
        print!(rt; " of {length} bytes")?;
    }
    match run.fault {
        Some(Fault::Read(call)) => Ok(print!(rt; " where read {call} fails")?),
        Some(Fault::Write(call)) => Ok(print!(rt; " where write {call} fails")?),
        None => Ok(()),
    }
}

/// Prints what was wanted and what was given, from the first byte that differs.
fn print_difference(rt: HostRuntime, wanted: &[u8], given: &[u8]) -> Result<(), Stop> {
    let place = difference(wanted, given);
    let line = line_at(wanted, place);
    println!(rt; "  byte {place}, line {line}")?;
    for (word, text) in [("wanted", wanted), ("given", given)] {
        match text.get(place) {
            Some(byte) => {
                let rest = rest_of_line(text, place);
                println!(rt; "  {word} {byte:02x}: {rest}")?;
            }
            None => println!(rt; "  {word} the end")?,
        }
    }
    Ok(())
}

/// Whether the run ended as told, with this status and these bytes. Else prints how it ended.
pub fn tell(
    rt: HostRuntime,
    case: Case<'_>,
    status: Status,
    wanted: &[u8],
    given: &[u8],
) -> Result<bool, Stop> {
    let ended = format!(in rt.alloc(); "{status}")?;
    let told = case.run.status;
    let is_ended_so = ended.as_str() == told;
    if is_ended_so && wanted == given {
        return Ok(true);
    }
    let table = case.table;
    let name = case.name;
    print!(rt; "{table}: row {name}")?;
    print_run(rt, case.run)?;
    println!(rt; "")?;
    if !is_ended_so {
        println!(rt; "  wanted {told}\n  given {ended}")?;
    }
    if wanted != given {
        print_difference(rt, wanted, given)?;
    }
    Ok(false)
}
