//! What the roots of a floor begin with.

ghost use Rattle.std.specs.Prelude.{◌≡◌, ◌≤◌, ◌++◌, ◌∷◌, [], IfOk, OnOk, length};
ghost use Rattle.df_config.specs.ConfigForm.{IsConfig};
ghost use Rattle.df_floor.specs.Starting.{floor_start, may_take_out, monitor_root, monitor_roots, monitors_of, plain_root, releasing_root, trader_root, trader_roots, watching};

use df_config::{Config, TraderRow};
use df_label::{Label, Privilege, Privileges, Right, Tag, TagSet};
use df_memory::NoMemory;
use df_messages::{endorsed, public, secret};
use df_start::{RootStart, Start};
use std::alloc::Global;

fn may_take_out(alloc: Global, number: u32) -> Result<Privileges, NoMemory>
    ensures { IfOk result (λ p. p ≡ may_take_out number ∷ []) }
{
    let privilege = Privilege {
        tag: Tag::new(alloc, &[], number)?,
        right: Right::Minus,
    };
    Privileges::from_ascending(vec![in alloc; privilege]?)
}

/// A root at a label, which may take a tag out.
fn releasing_root(alloc: Global, label: Label, number: u32) -> Result<RootStart, NoMemory>
    ensures { IfOk result (λ r. r ≡ releasing_root label number) }
{
    let privileges = may_take_out(alloc, number)?;
    Ok(RootStart { label, privileges })
}

fn plain_root(alloc: Global, label: Label) -> RootStart
    ensures { result ≡ plain_root label }
{
    RootStart {
        label,
        privileges: Privileges::new(alloc),
    }
}

fn one_tag(alloc: Global, number: u32) -> Result<TagSet, NoMemory>
    ensures { IfOk result (λ s. s ≡ (number ∷ []) ∷ []) }
{
    TagSet::new(alloc).with(&Tag::new(alloc, &[], number)?)
}

/// For one trader, and vouched for by the exchange.
fn watching(alloc: Global, number: u32) -> Result<Label, NoMemory>
    requires { number ≤ 64 }
    ensures { IfOk result (λ l. l ≡ watching number) }
{
    let s = one_tag(alloc, 3 + number)?;
    let i = one_tag(alloc, 0)?;
    Ok(Label { s, i })
}

fn trader_root(alloc: Global, number: u32) -> Result<RootStart, NoMemory>
    requires { number ≤ 64 }
    ensures { IfOk result (λ r. r ≡ trader_root number) }
{
    let tag = 3 + number;
    releasing_root(alloc, secret(alloc, tag)?, tag)
}

fn monitor_root(alloc: Global, number: u32) -> Result<RootStart, NoMemory>
    requires { number ≤ 64 }
    ensures { IfOk result (λ r. r ≡ monitor_root number) }
{
    Ok(plain_root(alloc, watching(alloc, number)?))
}

fn push_traders(
    alloc: Global,
    traders: &[TraderRow],
    roots: &mut Vec<RootStart>,
) -> Result<(), NoMemory>
    requires { length traders.now ≤ 64 }
    ensures { OnOk result (roots.new.items ≡ roots.old.items ++ trader_roots 0 traders.now) }
{
    for i in 0..traders.len() {
        roots.push(trader_root(alloc, i as u32)?)?;
    }
    Ok(())
}

/// The monitors of a trader.
fn push_monitors(
    alloc: Global,
    number: u32,
    pairs: &[u32],
    roots: &mut Vec<RootStart>,
) -> Result<(), NoMemory>
    requires { number ≤ 64 }
    ensures { OnOk result (roots.new.items ≡ roots.old.items ++ monitors_of number pairs.now) }
{
    for i in 0..pairs.len() {
        roots.push(monitor_root(alloc, number)?)?;
    }
    Ok(())
}

fn push_all_monitors(
    alloc: Global,
    traders: &[TraderRow],
    roots: &mut Vec<RootStart>,
) -> Result<(), NoMemory>
    requires { length traders.now ≤ 64 }
    ensures { OnOk result (roots.new.items ≡ roots.old.items ++ monitor_roots 0 traders.now) }
{
    for i in 0..traders.len() {
        push_monitors(alloc, i as u32, traders[i].pairs.as_slice(), roots)?;
    }
    Ok(())
}

/// What each root of a floor begins with: the exchange, the broker, the regulator, the traders,
/// and for each trader a monitor for each of its pairs.
#[tactic(auto, using(crate::proofs::Few::few_roots))]
pub fn floor_start(alloc: Global, config: &Config) -> Result<Start, NoMemory>
    requires { IsConfig config.now }
    ensures { IfOk result (λ s. s ≡ floor_start config.now) }
{
    let mut roots = Vec::new(alloc);
    roots.push(plain_root(alloc, endorsed(alloc)?))?;
    roots.push(releasing_root(alloc, secret(alloc, 1)?, 1)?)?;
    roots.push(releasing_root(alloc, public(alloc), 2)?)?;
    push_traders(alloc, config.traders.as_slice(), &mut roots)?;
    push_all_monitors(alloc, config.traders.as_slice(), &mut roots)?;
    Ok(Start::new(roots))
}
