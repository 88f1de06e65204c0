//! The names in an entry by which others find it.

ghost use Rattle.std.specs.Prelude.{◌≡◌, ◌++◌, ◌∷◌, [], IfOk, option_copied};
ghost use Rattle.df_rules.specs.Commits.{commit_of};
ghost use Rattle.df_unit.specs.declared.name.UnitName.TheVariants.{Managed, Root};
ghost use Rattle.df_why.specs.code.Names.{actor_of, event_of, key_of, made_of, origin_in, origin_of};

use df_label::TagSet;
use df_memory::NoMemory;
use df_unit::{Call, Commit, Effect, Entry, EventName, Path, Reply, UnitName};
use std::alloc::Global;

/// The entry's unit.
pub(crate) fn actor_of(entry: &Entry) -> Result<Option<UnitName>, NoMemory>
    ensures { IfOk result (λ name. name ≡ actor_of entry.now) }
{
    match entry {
        Entry::Done { actor, .. } => Ok(Some(actor.copy()?)),
        Entry::Emitted(_) => Ok(None),
    }
}

/// What an event is found by.
fn key_of(event: &EventName) -> Result<(u32, UnitName), NoMemory>
    ensures { IfOk result (λ key. key ≡ key_of event.now) }
{
    Ok((event.number, event.unit.copy()?))
}

/// The entry's commit.
pub(crate) fn commit_of(entry: &Entry) -> Option<&Commit>
    ensures { option_copied result ≡ commit_of entry.now }
{
    match entry {
        Entry::Done {
            effect: Effect::Commit(commit),
            ..
        } => Some(commit),
        Entry::Done { .. } => None,
        Entry::Emitted(commit) => Some(commit),
    }
}

/// The event of the entry's commit.
pub(crate) fn event_of(entry: &Entry) -> Result<Option<(u32, UnitName)>, NoMemory>
    ensures { IfOk result (λ key. key ≡ event_of entry.now) }
{
    match commit_of(entry) {
        Some(commit) => Ok(Some(key_of(&commit.event)?)),
        None => Ok(None),
    }
}

/// What must have been made before a unit begins: a plain unit itself, of an instance the
/// subscription, which goes by the instance without tags.
fn origin_of(alloc: Global, name: &UnitName) -> Result<UnitName, NoMemory>
    ensures { IfOk result (λ origin. origin ≡ origin_of name.now) }
{
    match name {
        UnitName::Root(path) => Ok(UnitName::Root(path.copy()?)),
        UnitName::Managed { owner, sub, .. } => subscription(alloc, owner, *sub),
    }
}

fn subscription(alloc: Global, owner: &Path, sub: u32) -> Result<UnitName, NoMemory>
    ensures { IfOk result (λ name. name ≡ Managed owner.now sub []) }
{
    Ok(UnitName::Managed {
        owner: owner.copy()?,
        sub,
        s: TagSet::new(alloc),
    })
}

fn child(alloc: Global, maker: &Path, number: u32) -> Result<UnitName, NoMemory>
    ensures { IfOk result (λ name. name ≡ Root (maker.now ++ number ∷ [])) }
{
    let mut numbers = Vec::from_slice(alloc, maker.as_slice())?;
    numbers.push(number)?;
    Ok(UnitName::Root(Path::new(numbers)))
}

/// What must have been made before the entry's unit begins.
pub(crate) fn origin_in(alloc: Global, entry: &Entry) -> Result<Option<UnitName>, NoMemory>
    ensures { IfOk result (λ name. name ≡ origin_in entry.now) }
{
    match entry {
        Entry::Done { actor, .. } => Ok(Some(origin_of(alloc, actor)?)),
        Entry::Emitted(_) => Ok(None),
    }
}

/// The child or the managed subscription that the entry makes.
pub(crate) fn made_of(alloc: Global, entry: &Entry) -> Result<Option<UnitName>, NoMemory>
    ensures { IfOk result (λ name. name ≡ made_of entry.now) }
{
    match entry {
        Entry::Done {
            actor: UnitName::Root(path),
            call: Call::Instantiate { .. },
            reply: Reply::Unit(number),
            ..
        } => Ok(Some(child(alloc, path, *number)?)),
        Entry::Done {
            actor: UnitName::Root(path),
            call: Call::SubscribeManaged { .. },
            reply: Reply::Sub(number),
            ..
        } => Ok(Some(subscription(alloc, path, *number)?)),
        _ => Ok(None),
    }
}
