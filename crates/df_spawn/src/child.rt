//! The labels and the privileges of a unit that another makes.

ghost use Rattle.std.specs.Prelude.{◌≡◌, IfErr, IfOk, None, true};
ghost use Rattle.df_label.specs.TagSet.{is_subset};
ghost use Rattle.df_spawn.specs.declared.child.SpawnRefused.{SpawnRefused};
ghost use Rattle.df_spawn.specs.Child.{Names, input_label, lacking, lacking_authority, lacking_tag, output_label};

use df_label::{Label, Privilege, Privileges, TagSet};
use df_memory::NoMemory;
use df_priv::{Act, Held, needed, needed_to_attach};

/// What a unit has as another makes it.
#[derive(Debug, Drop)]
pub struct ChildLabels {
    pub input: Label,
    pub output: Label,
    pub held: Held,
}

/// Why a unit may not be made.
#[derive(Debug, Drop)]
pub enum SpawnRefused {
    Lacks(Privilege),
    NoMemory,
}

impl From<NoMemory> for SpawnRefused {
    ghost from_gives = { λ e refused. refused ≡ SpawnRefused.NoMemory };

    fn from(_error: NoMemory) -> SpawnRefused {
        SpawnRefused::NoMemory
    }
}

/// The labels and the privileges of a unit that is made with the tags `s` and with these
/// privileges, by a maker with these labels, who holds `held`.
pub fn child_labels(
    input: &Label,
    output: &Label,
    held: &Held,
    s: &TagSet,
    privileges: &Privileges,
) -> Result<ChildLabels, SpawnRefused>
    ensures allowed { IfOk result (λ child.
        lacking input.now output.now held.now s.now privileges.now ≡ None) }
    ensures input { IfOk result (λ child.
        child.input ≡ input_label input.now output.now s.now) }
    ensures output { IfOk result (λ child.
        child.output ≡ output_label input.now output.now s.now) }
    ensures held { IfOk result (λ child. child.held ≡ privileges.now) }

    // What is read and what the maker wrote at may flow on into what is written.
    ensures reads { IfOk result (λ child. is_subset child.input.s child.output.s ≡ true) }
    ensures writes { IfOk result (λ child. is_subset output.now.s child.output.s ≡ true) }
    ensures read_integrity { IfOk result (λ child.
        is_subset child.output.i child.input.i ≡ true) }
    ensures written_integrity { IfOk result (λ child.
        is_subset child.output.i output.now.i ≡ true) }

    ensures refused { IfErr result (Names
        (lacking input.now output.now held.now s.now privileges.now)) }
{
    if let Some(q) = lacking(input, output, held, s, privileges)? {
        return Err(SpawnRefused::Lacks(q));
    }
    let child = made(input, output, s, privileges)?;
    Ok(child)
}

/// The first privilege that a maker with these labels, who holds `held`, lacks for a unit with the
/// tags `s` and these privileges.
pub fn lacking(
    input: &Label,
    output: &Label,
    held: &Held,
    s: &TagSet,
    privileges: &Privileges,
) -> Result<Option<Privilege>, NoMemory>
    ensures { IfOk result (λ q.
        q ≡ lacking input.now output.now held.now s.now privileges.now) }
{
    if let Some(q) = lacking_tag(input, output, held, s)? {
        return Ok(Some(q));
    }
    lacking_authority(held, privileges)
}

/// The plus over the least tag that the maker neither has nor may add.
fn lacking_tag(
    input: &Label,
    output: &Label,
    held: &Held,
    s: &TagSet,
) -> Result<Option<Privilege>, NoMemory>
    ensures { IfOk result (λ q. q ≡ lacking_tag input.now output.now held.now s.now) }
{
    for tag in s.as_slice() {
        let plus = needed(Act::Add, tag)?;
        if !(input.s.contains(tag) || output.s.contains(tag) || held.holds(&plus)) {
            return Ok(Some(plus));
        }
    }
    Ok(None)
}

/// The authority over the first privilege that the maker may not pass on.
fn lacking_authority(held: &Held, privileges: &Privileges) -> Result<Option<Privilege>, NoMemory>
    ensures { IfOk result (λ q. q ≡ lacking_authority held.now privileges.now) }
{
    for p in privileges.as_slice() {
        let authority = needed_to_attach(p)?;
        if !held.holds(&authority) {
            return Ok(Some(authority));
        }
    }
    Ok(None)
}

/// The unit, where nothing lacks.
fn made(
    input: &Label,
    output: &Label,
    s: &TagSet,
    privileges: &Privileges,
) -> Result<ChildLabels, NoMemory>
    ensures input { IfOk result (λ child.
        child.input ≡ input_label input.now output.now s.now) }
    ensures output { IfOk result (λ child.
        child.output ≡ output_label input.now output.now s.now) }
    ensures held { IfOk result (λ child. child.held ≡ privileges.now) }
{
    let secrets = s.union(&input.s)?.union(&output.s)?;
    let read = Label {
        s: secrets.copy()?,
        i: input.i.copy()?,
    };
    let written = Label {
        s: secrets,
        i: input.i.meet(&output.i)?,
    };
    let privileges = privileges.copy()?;
    Ok(ChildLabels {
        input: read,
        output: written,
        held: Held::from(privileges),
    })
}
