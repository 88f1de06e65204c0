//! The units: what each begins with, and its brain.

ghost use Rattle.std.specs.Prelude.{◌≡◌, [], ◌∷◌, IfOk, length, true};
ghost use Rattle.df_frozen.specs.Name.{is_name};

use df_crew::Crew;
use df_filter::{Clause, Filter, Test};
use df_frozen::{Frozen, Name, Value, Words};
use df_label::{Label, Privilege, Privileges, Right, Tag, TagSet};
use df_memory::NoMemory;
use df_start::{RootStart, Start};
use std::alloc::Global;
use ward_units::{Doctor, NewPart, Office, Role, Ward};

/// For everybody.
pub(crate) fn public(alloc: Global) -> Label {
    Label {
        s: TagSet::new(alloc),
        i: TagSet::new(alloc),
    }
}

/// The tag of secrets, `#0`.
fn secrecy(alloc: Global) -> Result<Tag, NoMemory> {
    Tag::new(alloc, &[], 0)
}

/// For those who are cleared for secrets.
fn secret(alloc: Global) -> Result<Label, NoMemory> {
    Ok(Label {
        s: TagSet::new(alloc).with(&secrecy(alloc)?)?,
        i: TagSet::new(alloc),
    })
}

/// The name of this text.
fn name(text: &str) -> Name
    requires { is_name text.now ≡ true }
    ensures { result ≡ text.now }
{
    match Name::new(text) {
        Ok(name) => name,
        Err(_) => unreachable!(),
    }
}

fn words(alloc: Global, text: &str) -> Result<Value, NoMemory> {
    Ok(Value::Words(Words::new(alloc, text)?))
}

fn frozen(alloc: Global, value: Value) -> Result<Frozen, NoMemory> {
    match value.freeze(alloc) {
        Ok(frozen) => Ok(frozen),
        Err(_) => Err(NoMemory),
    }
}

fn filter_of(alloc: Global, clause: Clause) -> Result<Filter, NoMemory>
    ensures { IfOk result (λ f. f ≡ clause ∷ []) }
{
    let clauses = vec![in alloc; clause]?;
    match Filter::new(clauses) {
        Ok(filter) => Ok(filter),
        Err(_) => unreachable!(),
    }
}

/// The events that have a bed.
fn with_a_bed(alloc: Global) -> Result<Filter, NoMemory> {
    let clause = Clause {
        name: name("bed"),
        test: Test::Present,
    };
    filter_of(alloc, clause)
}

/// The ward tells everybody that bed 12 is taken, and those who are cleared why.
fn ward(alloc: Global) -> Result<Ward, NoMemory> {
    let bed = NewPart {
        label: public(alloc),
        name: name("bed"),
        value: frozen(alloc, Value::Int(12))?,
    };
    let diagnosis = NewPart {
        label: secret(alloc)?,
        name: name("diagnosis"),
        value: frozen(alloc, words(alloc, "measles")?)?,
    };
    Ok(Ward::new(secrecy(alloc)?, bed, diagnosis))
}

/// The doctor adds the part `seen`. It asks for no secrecy, and gets that of the doctor's label.
fn doctor(alloc: Global) -> Result<Doctor, NoMemory> {
    let mark = NewPart {
        label: public(alloc),
        name: name("seen"),
        value: frozen(alloc, Value::Int(1))?,
    };
    Ok(Doctor::new(with_a_bed(alloc)?, mark))
}

/// The privilege to take the tag of secrets out of a label.
fn may_let_out(alloc: Global) -> Result<Privileges, NoMemory> {
    let privilege = Privilege {
        tag: secrecy(alloc)?,
        right: Right::Minus,
    };
    let mut privileges = Privileges::new(alloc);
    privileges.add(&privilege)?;
    Ok(privileges)
}

/// The ward and the doctor are cleared for secrets, and the ward alone may let any out.
fn start(alloc: Global) -> Result<Start, NoMemory>
    ensures { IfOk result (λ start. length start ≡ 3) }
{
    let ward = RootStart {
        label: secret(alloc)?,
        privileges: may_let_out(alloc)?,
    };
    let doctor = RootStart {
        label: secret(alloc)?,
        privileges: Privileges::new(alloc),
    };
    let office = RootStart {
        label: public(alloc),
        privileges: Privileges::new(alloc),
    };
    Ok(Start::new(vec![in alloc; ward, doctor, office]?))
}

/// A brain for each unit, in their order.
fn brains(alloc: Global) -> Result<Vec<Role>, NoMemory>
    ensures { IfOk result (λ brains. length brains.items ≡ 3) }
{
    let mut brains = Vec::new(alloc);
    brains.push(Role::Ward(ward(alloc)?))?;
    brains.push(Role::Doctor(doctor(alloc)?))?;
    brains.push(Role::Office(Office::new(with_a_bed(alloc)?)))?;
    Ok(brains)
}

/// The crew, before its first turn.
pub(crate) fn fresh_crew(alloc: Global) -> Result<Crew<Role>, NoMemory>
    ensures { IfOk result (λ crew. crew.core.1 ≡ []) }
{
    Crew::start(alloc, start(alloc)?, brains(alloc)?)
}
