ghost use Rattle.std.specs.Prelude.{◌≡◌, ◌≤◌, ℕ, List, [], ◌∷◌, IfErr, IfOk, length};
ghost use Rattle.df_auction.specs.Refusing.{IsRightRefusal};
ghost use Rattle.df_gen.specs.Generated.{generated};
ghost use Rattle.df_io.specs.Limits.{longest_file};
ghost use Rattle.df_run.specs.Tasks.{IsText, RefusesInput, end_of, told_of};
ghost use Rattle.df_run.specs.declared.tasks.End.TheVariants as end;
ghost use Rattle.df_ticks.specs.TickText.{ticks_text};
ghost use Rattle.df_words.specs.declared.command.Command.TheVariants.{Auction, Check, Gen, Lint, Load, Purge, Steps, Upgrade, Why};
ghost use Rattle.df_words.specs.Words.{Ask, files_of};
ghost use Rattle.df_words.specs.declared.command.Files.TheVariants as files;

use crate::lint::lint_script;
use crate::status::BadKind;
use crate::steps::steps;
use df_auction::{OrdersRefused, auction_text};
use df_audit::{Audit, Finding, check_text, purge_text, upgrade_text, why_text};
use df_crew::Crew;
use df_floor_run::run_load;
use df_floor_units::FloorBrain;
use df_gen::gen_ticks;
use df_label::Label;
use df_lines::FileRefused;
use df_machine::Tables;
use df_memory::NoMemory;
use df_ticks::write_ticks;
use df_words::Command;
use std::alloc::Global;

/// Why a command makes no text of a file.
#[derive(Clone, Copy, Debug, PartialEq, Eq)]
pub enum Refused {
    /// The file isn't what the command reads.
    BadInput { line: u64, kind: BadKind },
    NoMemory,
}

/// How a run ends once all is written.
#[derive(Clone, Copy, Debug, PartialEq, Eq)]
pub enum End {
    Done,
    /// The journal isn't right, and this is its first wrong place.
    Wrong { place: u64 },
    /// The run of a floor was cut off, with so many entries.
    Unsettled { steps: u64 },
    /// The journal is right, has so many entries, and not the place that was asked for.
    NoPlace { entries: u64 },
}

/// What a run keeps to its end, and need not be freed by a program that ends with it.
#[derive(Drop)]
pub enum Kept {
    Nothing,
    Tables(Tables),
    Crew(Crew<FloorBrain>),
}

/// What a command writes, how its run then ends, and what is kept of the run.
#[derive(Drop)]
pub struct Output {
    pub text: Vec<u8>,
    pub end: End,
    pub kept: Kept,
}

/// What a command of one file writes of its bytes.
pub fn output_of(alloc: Global, command: &Command, bytes: &[u8]) -> Result<Output, Refused>
    requires one { (file : ℕ) × (files_of command.now ≡ files.One file) }
    requires short { length bytes.now ≤ longest_file }
    ensures gives { IfOk result (λ o.
        IsText command.now (bytes.now ∷ []) o.end o.text.items) }
    ensures refuses { IfErr result (RefusesInput command.now bytes.now) }
{
    match command {
        Command::Steps { .. } => journal_of_script(alloc, bytes),
        Command::Check { .. } => check_of_journal(alloc, bytes),
        Command::Purge { label, .. } => purge_of_journal(alloc, label, bytes),
        Command::Upgrade { .. } => upgrade_of_journal(alloc, bytes),
        Command::Why { place, .. } => why_of_journal(alloc, *place, bytes),
        Command::Auction { .. } => auctions_of_orders(alloc, bytes),
        Command::Lint { .. } => lint_of_script(alloc, bytes),
        _ => unreachable!(),
    }
}

/// What a command without a file writes.
pub fn output_of_key(alloc: Global, command: &Command) -> Result<Output, NoMemory>
    requires asked { (words : List (List ℕ)) × Ask words command.now }
    requires none { files_of command.now ≡ files.None }
    ensures { IfOk result (λ o. IsText command.now [] o.end o.text.items) }
{
    match command {
        Command::Gen { key, n } => ticks_of_key(alloc, *key, *n),
        Command::Load { key, n } => load_of_key(alloc, *key, *n),
        _ => unreachable!(),
    }
}

/// The line of a file that is blamed, or want of memory.
fn blamed_line(refused: FileRefused) -> Refused
    ensures { result ≡ told_of refused }
{
    match refused {
        FileRefused::Syntax { line } => Refused::BadInput {
            line,
            kind: BadKind::Syntax,
        },
        FileRefused::TooLarge { line } => Refused::BadInput {
            line,
            kind: BadKind::TooLarge,
        },
        FileRefused::NoMemory => Refused::NoMemory,
    }
}

/// A text that is written where the run is done.
fn done(text: Vec<u8>) -> Output
    ensures text { result.text.items ≡ text.items }
    ensures end { result.end ≡ end.Done }
{
    Output {
        text,
        end: End::Done,
        kept: Kept::Nothing,
    }
}

/// What an audit tells, and how it ends.
fn audited(audit: Audit) -> Output
    ensures text { result.text.items ≡ audit.text.items }
    ensures end { result.end ≡ end_of audit.finding }
{
    let Audit {
        finding,
        text,
        tables,
    } = audit;
    let end = match finding {
        Finding::Right => End::Done,
        Finding::Wrong { place } => End::Wrong { place },
        Finding::NoPlace { entries } => End::NoPlace { entries },
    };
    let kept = match tables {
        Some(tables) => Kept::Tables(tables),
        None => Kept::Nothing,
    };
    Output { text, end, kept }
}

fn journal_of_script(alloc: Global, bytes: &[u8]) -> Result<Output, Refused>
    ensures gives { (file : ℕ) → IfOk result (λ o.
        IsText (Steps file) (bytes.now ∷ []) o.end o.text.items) }
    ensures refuses { (file : ℕ) → IfErr result (RefusesInput (Steps file) bytes.now) }
{
    match steps(alloc, bytes) {
        Ok(made) => Ok(Output {
            text: made.text,
            end: End::Done,
            kept: Kept::Tables(made.tables),
        }),
        Err(refused) => Err(blamed_line(refused)),
    }
}

fn check_of_journal(alloc: Global, bytes: &[u8]) -> Result<Output, Refused>
    ensures gives { (journal : ℕ) → IfOk result (λ o.
        IsText (Check journal) (bytes.now ∷ []) o.end o.text.items) }
    ensures refuses { (journal : ℕ) → IfErr result (RefusesInput (Check journal) bytes.now) }
{
    match check_text(alloc, bytes) {
        Ok(audit) => Ok(audited(audit)),
        Err(refused) => Err(blamed_line(refused)),
    }
}

fn purge_of_journal(alloc: Global, label: &Label, bytes: &[u8]) -> Result<Output, Refused>
    ensures gives { (journal : ℕ) → IfOk result (λ o.
        IsText (Purge label.now journal) (bytes.now ∷ []) o.end o.text.items) }
    ensures refuses { (journal : ℕ) →
        IfErr result (RefusesInput (Purge label.now journal) bytes.now) }
{
    match purge_text(alloc, label, bytes) {
        Ok(audit) => Ok(audited(audit)),
        Err(refused) => Err(blamed_line(refused)),
    }
}

fn upgrade_of_journal(alloc: Global, bytes: &[u8]) -> Result<Output, Refused>
    ensures gives { (journal : ℕ) → IfOk result (λ o.
        IsText (Upgrade journal) (bytes.now ∷ []) o.end o.text.items) }
    ensures refuses { (journal : ℕ) → IfErr result (RefusesInput (Upgrade journal) bytes.now) }
{
    match upgrade_text(alloc, bytes) {
        Ok(audit) => Ok(audited(audit)),
        Err(refused) => Err(blamed_line(refused)),
    }
}

fn why_of_journal(alloc: Global, place: u64, bytes: &[u8]) -> Result<Output, Refused>
    ensures gives { (journal : ℕ) → IfOk result (λ o.
        IsText (Why journal place) (bytes.now ∷ []) o.end o.text.items) }
    ensures refuses { (journal : ℕ) → IfErr result (RefusesInput (Why journal place) bytes.now) }
{
    match why_text(alloc, place, bytes) {
        Ok(audit) => Ok(audited(audit)),
        Err(refused) => Err(blamed_line(refused)),
    }
}

fn auctions_of_orders(alloc: Global, bytes: &[u8]) -> Result<Output, Refused>
    requires { length bytes.now ≤ longest_file }
    ensures gives { (orders : ℕ) → IfOk result (λ o.
        IsText (Auction orders) (bytes.now ∷ []) o.end o.text.items) }
    ensures refuses { (orders : ℕ) → IfErr result (RefusesInput (Auction orders) bytes.now) }
{
    match auction_text(alloc, bytes) {
        Ok(text) => Ok(done(text)),
        Err(refused) => Err(blamed(refused)),
    }
}

fn lint_of_script(alloc: Global, bytes: &[u8]) -> Result<Output, Refused>
    ensures gives { (script : ℕ) → IfOk result (λ o.
        IsText (Lint script) (bytes.now ∷ []) o.end o.text.items) }
    ensures refuses { (script : ℕ) → IfErr result (RefusesInput (Lint script) bytes.now) }
{
    match lint_script(alloc, bytes) {
        Ok(text) => Ok(done(text)),
        Err(refused) => Err(blamed_line(refused)),
    }
}

fn ticks_of_key(alloc: Global, key: u64, n: u32) -> Result<Output, NoMemory>
    ensures { IfOk result (λ o. IsText (Gen key n) [] o.end o.text.items) }
{
    match ticks_text(alloc, key, n) {
        Ok(text) => Ok(done(text)),
        Err(_) => Err(NoMemory),
    }
}

fn ticks_text(alloc: Global, key: u64, n: u32) -> Result<Vec<u8>, df_memory::NoMemory>
    ensures { IfOk result (λ text. text.items ≡ ticks_text (generated key n)) }
{
    let ticks = gen_ticks(alloc, key, n)?;
    write_ticks(alloc, ticks.as_slice())
}

fn load_of_key(alloc: Global, key: u64, n: u32) -> Result<Output, NoMemory>
    requires { n ≤ 4_000 }
    ensures { IfOk result (λ o. IsText (Load key n) [] o.end o.text.items) }
{
    let run = run_load(alloc, key, n)?;
    Ok(Output {
        text: run.text,
        end: End::Done,
        kept: Kept::Crew(run.crew),
    })
}

/// The record of an order file that is blamed, or want of memory.
fn blamed(refused: OrdersRefused) -> Refused
    ensures { (bytes : List ℕ) (orders : ℕ) → IsRightRefusal bytes refused →
        RefusesInput (Auction orders) bytes result }
{
    match refused {
        OrdersRefused::BadOrder { line } => Refused::BadInput {
            line,
            kind: BadKind::BadOrder,
        },
        OrdersRefused::NoMemory => Refused::NoMemory,
    }
}
