//! The runs that a row asks for.

ghost use Rattle.std.specs.Prelude.{◌<◌};

use crate::stop::Stop;
use crate::table::{Fault, Line};
use crate::text::Text;
use std::alloc::Global;

/// One run of a row.
#[derive(Clone, Copy, Debug)]
pub struct Run<'a> {
    /// What fills the holes.
    pub fill: Option<Text<'a>>,
    /// How many bytes of each file there are at most.
    pub front: Option<usize>,
    pub fault: Option<Fault>,
    pub status: &'a str,
    /// How many bytes of the output are written at most.
    pub written: Option<usize>,
}

/// The statuses behind which the output is written, but for a write fault.
fn is_written_behind(status: &str) -> bool {
    status == "defcon: done"
        || status.starts_with("defcon: wrong at ")
        || status.starts_with("defcon: unsettled after ")
}

/// How many bytes are written at most, where a run of a sweep ends so.
fn written_behind(status: &str) -> Option<usize> {
    if is_written_behind(status) {
        None
    } else {
        Some(0)
    }
}

/// The most bytes that a write takes.
pub fn most_of(row: &[Line<'_>]) -> usize
    ensures { 0 < result }
{
    let mut most = usize::MAX;
    for line in row {
        if let Line::Takes(count) = line {
            most = *count;
        }
    }
    most.max(1)
}

/// The run of a row of one run.
fn lone_run<'a>(row: &'a [Line<'a>]) -> Run<'a> {
    let mut status = "defcon: done";
    let mut fault = None;
    for line in row {
        match line {
            Line::Status(told) => status = told,
            Line::Fails(told) => fault = Some(*told),
            _ => {}
        }
    }
    Run {
        fill: None,
        front: None,
        fault,
        status,
        written: None,
    }
}

/// Appends a run for each of these lengths of the files.
fn append_fronts<'a>(
    runs: &mut Vec<Run<'a>>,
    lone: Run<'a>,
    first: usize,
    last: usize,
    status: &'a str,
) -> Result<(), Stop> {
    for length in first..=last {
        runs.push(Run {
            front: Some(length),
            status,
            written: written_behind(status),
            ..lone
        })?;
    }
    Ok(())
}

/// The run in which this read fails.
fn read_failing<'a>(lone: Run<'a>, call: u64) -> Run<'a> {
    Run {
        fault: Some(Fault::Read(call)),
        status: "defcon: read fault",
        written: Some(0),
        ..lone
    }
}

/// The run in which this write fails, where the ones before it take so many bytes each.
fn write_failing<'a>(lone: Run<'a>, call: u64, most: usize) -> Run<'a> {
    let before = usize::try_from(call.saturating_sub(1)).unwrap_or(usize::MAX);
    Run {
        fault: Some(Fault::Write(call)),
        status: "defcon: write fault",
        written: Some(before.saturating_mul(most)),
        ..lone
    }
}

/// Appends a run for each of the first reads or writes, which fails in it.
fn append_failing<'a>(
    runs: &mut Vec<Run<'a>>,
    lone: Run<'a>,
    last: Fault,
    most: usize,
) -> Result<(), Stop> {
    let count = match last {
        Fault::Read(count) | Fault::Write(count) => count,
    };
    for before in 0..count {
        let call = before.saturating_add(1);
        runs.push(match last {
            Fault::Read(_) => read_failing(lone, call),
            Fault::Write(_) => write_failing(lone, call, most),
        })?;
    }
    Ok(())
}

/// Appends the runs of one line, where it stands behind an `each` with this status.
fn append_line<'a>(
    runs: &mut Vec<Run<'a>>,
    lone: Run<'a>,
    line: &Line<'a>,
    each: Option<&'a str>,
    most: usize,
) -> Result<(), Stop> {
    match (line, each) {
        (Line::Text(text), Some(status)) => Ok(runs.push(Run {
            fill: Some(*text),
            status,
            written: written_behind(status),
            ..lone
        })?),
        (
            Line::Fronts {
                first,
                last,
                status,
            },
            _,
        ) => append_fronts(runs, lone, *first, *last, status),
        (Line::EachFails(last), _) => append_failing(runs, lone, *last, most),
        _ => Ok(()),
    }
}

/// The status of the texts behind this line, where it was this behind the line before.
fn each_behind<'a>(line: &Line<'a>, before: Option<&'a str>) -> Option<&'a str> {
    match line {
        Line::Each(status) => Some(status),
        Line::Text(_) => before,
        _ => None,
    }
}

/// The runs of a row.
pub fn runs_of<'a>(alloc: Global, row: &'a [Line<'a>]) -> Result<Vec<Run<'a>>, Stop> {
    let lone = lone_run(row);
    let most = most_of(row);
    let mut runs = Vec::new(alloc);
    let mut each = None;
    for line in row {
        each = each_behind(line, each);
        append_line(&mut runs, lone, line, each, most)?;
    }
    if runs.is_empty() {
        runs.push(lone)?;
    }
    Ok(runs)
}
