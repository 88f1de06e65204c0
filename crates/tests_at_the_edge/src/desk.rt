//! Threads that append to a journal on one desk.

ghost use Rattle.std.specs.Prelude.{◌≡◌, ◌++◌, ◌∷◌, [], All, IfOk, OnOk, OnErr};
ghost use Rattle.df_desk.specs.Pass.{IsFree};

use df_desk::{Desk, Journaled, Pass};
use std::alloc::{AllocError, Global};
use std::sync::Wait;
use std::test::Fail;
use std::thread;
use std::thread::{Threads, for_each_mut};
use std::time::{Clock, Duration};

/// A line of a journal: who wrote it, and how many lines this writer had written before.
#[derive(Clone, Copy, Debug)]
struct Line {
    writer: usize,
    number: u64,
}

/// Lines, under a name that stays.
#[derive(Debug, Drop)]
struct Journal {
    name: u64,
    lines: Vec<Line>,
}

impl Journaled for Journal {
    type Origin = u64;

    type Entry = Line;

    ghost origin = { λ j. j.name };

    ghost list = { λ j. j.lines.items };

    fn count(&self) -> u64 {
        self.lines.len() as u64
    }
}

impl Journal {
    fn new(alloc: Global) -> Journal {
        Journal {
            name: 7,
            lines: Vec::new(alloc),
        }
    }

    fn append(&mut self, line: Line) -> Result<(), AllocError>
        ensures name { self.new.name ≡ self.old.name }
        ensures ok { OnOk result (self.new.lines.items ≡ self.old.lines.items ++ line ∷ []) }
        ensures err { OnErr result (self.new.lines.items ≡ self.old.lines.items) }
    {
        self.lines.push(line)?;
        Ok(())
    }
}

/// One that writes into the journal of a desk.
#[derive(Drop)]
struct Writer {
    number: usize,
    pass: Pass<Journal>,
    written: u64,
}

impl Writer {
    // Takes the journal, appends one line, keeps it for a while and gives it back, `count` times.
    fn write<R: Wait + Clock>(&mut self, rt: &R, desk: &Desk<Journal>, count: u64, pause: Duration)
        requires { IsFree desk.now self.old.pass }
        ensures { IsFree desk.now self.new.pass }
    {
        for number in 0..count {
            let mut journal = desk.take(rt, &mut self.pass);
            let line = Line {
                writer: self.number,
                number,
            };
            if journal.append(line).is_ok() {
                self.written = self.written.saturating_add(1);
            }
            if !pause.is_zero() {
                thread::sleep(rt, pause);
            }
            desk.give(&mut self.pass, journal);
        }
    }
}

// Writers at the desk, each with a pass of its own.
fn writers_at(
    alloc: Global,
    desk: &Desk<Journal>,
    pass: &mut Pass<Journal>,
    count: usize,
) -> Result<Vec<Writer>, Fail>
    requires { IsFree desk.now pass.old }
    ensures pass { IsFree desk.now pass.new }
    ensures writers { IfOk result (λ writers. All (λ writer. IsFree desk.now writer.pass)
        writers.items) }
{
    let mut writers = Vec::new(alloc);
    for number in 0..count {
        let split = desk.split(pass)?;
        writers.push(Writer {
            number,
            pass: split,
            written: 0,
        })?;
    }
    Ok(writers)
}

// Joins the writers' passes into this one, and says how many lines the writers appended.
fn join_all(desk: &Desk<Journal>, pass: &mut Pass<Journal>, mut writers: Vec<Writer>) -> u64
    requires pass { IsFree desk.now pass.old }
    requires writers { All (λ writer. IsFree desk.now writer.pass) writers.items }
    ensures { IsFree desk.now pass.new }
{
    let mut written = 0u64;
    while let Some(writer) = writers.pop() {
        desk.join(pass, writer.pass);
        written = written.saturating_add(writer.written);
    }
    written
}

// Each writer appends `count` lines, in a thread of its own. Says how many lines they appended in
// all.
fn write_at_once<R: Threads + Wait + Clock + Sync>(
    rt: &R,
    alloc: Global,
    desk: &Desk<Journal>,
    pass: &mut Pass<Journal>,
    writers: usize,
    count: u64,
    pause: Duration,
) -> Result<u64, Fail>
    requires { IsFree desk.now pass.old }
    ensures { IsFree desk.now pass.new }
{
    let mut all = writers_at(alloc, desk, pass, writers)?;
    for_each_mut(
        rt,
        &mut all,
        writers.max(1),
        &|_, writer| { writer.write(rt, desk, count, pause) },
    );
    Ok(join_all(desk, pass, all))
}

#[test]
fn writers_share_a_journal(rt: HostRuntime) -> Result<(), Fail> {
    let none = Duration::ZERO;
    // those that keep the journal for a while have the others sleep, who must be woken
    let some = Duration::from_millis(1);
    for (writers, count, pause) in [(2usize, 1_000u64, none), (4, 10_000, none), (3, 20, some)] {
        let (desk, mut pass) = Desk::new(rt.alloc(), Journal::new(rt.alloc()))?;
        let written = write_at_once(&rt, rt.alloc(), &desk, &mut pass, writers, count, pause)?;
        assert_eq!(rt; written, writers as u64 * count);
        let journal = desk.finish(&rt, pass);
        assert_eq!(rt; journal.name, 7);
        let mut next = [0u64; 4];
        for line in &journal.lines {
            let due = next.get_mut(line.writer).ok_or("a writer")?;
            assert_eq!(rt; line.number, *due);
            *due = due.saturating_add(1);
        }
        for (writer, lines) in next.iter().enumerate() {
            assert_eq!(rt; *lines, if writer < writers { count } else { 0 });
        }
    }
    Ok(())
}
