//! How many filters are tested for an event, and what contaminations its commit gives.

ghost use Rattle.std.specs.Prelude.{◌≡◌, ◌<◌, OnOk};
ghost use Rattle.std.specs.List.{All};

use df_filter::{Clause, Filter, Test};
use df_frozen::{Frozen, Name, Value};
use df_index::{Index, Steps, Tester};
use df_label::{Label, Privileges, TagSet};
use df_managed::contaminations;
use df_part::{Contents, Edit, Part, PartRef};
use std::alloc::Global;
use std::marker::Brand;
use std::sync::ledger::{Blank, Ledger};
use std::test::Fail;

/// Counts its tests twice: as steps, and as a number that can be read.
#[derive(Drop)]
struct Counting<L: Ledger> {
    steps: Steps<L>,
    tests: u32,
}

impl<L: Ledger> Tester<Filter> for Counting<L> {
    ghost count = { λ counting. counting.steps };

    fn test(&mut self, filter: &Filter, at: &Label, contents: &Contents) -> bool {
        self.tests = self.tests.saturating_add(1);
        self.steps.test(filter, at, contents)
    }
}

fn public(alloc: Global) -> Label {
    Label {
        s: TagSet::new(alloc),
        i: TagSet::new(alloc),
    }
}

/// The filter of events with a part of this name.
fn filter(alloc: Global, name: &str) -> Result<Filter, Fail> {
    let name = Name::new(name)?;
    let test = Test::Present;
    let mut clauses = Vec::new(alloc);
    clauses.push(Clause { name, test })?;
    Ok(Filter::new(clauses)?)
}

/// Unit 0 asks for one more name.
fn enrol(alloc: Global, index: &mut Index<Filter>, sub: u32, name: &str) -> Result<(), Fail>
    requires { All (λ s. s.unit < 1) index.old.enrolled }
    ensures { OnOk result (All (λ s. s.unit < 1) index.new.enrolled) }
{
    let filter = filter(alloc, name)?;
    Ok(index.enrol(0, sub, filter)?)
}

/// An edit that adds a part of this name.
fn adding(alloc: Global, name: &str) -> Result<Edit, Fail> {
    let name = Name::new(name)?;
    let value = Frozen::new(alloc, Value::Int(1))?;
    let part = Part {
        name,
        label: public(alloc),
        value,
        privileges: Privileges::new(alloc),
    };
    let part = PartRef::new(alloc, part)?;
    let mut added = Vec::new(alloc);
    added.push(part)?;
    Ok(Edit::new(Vec::new(alloc), added))
}

/// How many subscriptions an event goes to at its first commit, and how many filters are tested.
fn counts<L: Ledger>(
    index: &mut Index<Filter>,
    label: &Label,
    contents: &Contents,
    edit: &Edit,
    blank: Blank,
) -> Result<(usize, u32), Fail>
    requires name { blank.name ≡ L.name }
    requires parts { blank.parts ≡ L.parts }
    requires some { 0 < L.parts }
    requires units { All (λ s. s.unit < 1) index.old.enrolled }
{
    let mut counting = Counting::<L> {
        steps: Steps::new(blank),
        tests: 0,
    };
    let labels = std::slice::from_ref(label);
    let receivers = index.receivers(labels, 0, contents, edit, &mut counting)?;
    Ok((receivers.as_slice().len(), counting.tests))
}

/// The same of a copy of the index.
fn counts_at(
    index: &Index<Filter>,
    contents: &Contents,
    edit: &Edit,
    label: &Label,
) -> Result<(usize, u32), Fail>
    requires { All (λ s. s.unit < 1) index.now.enrolled }
{
    let mut copy = index.copy()?;
    counts::<Brand>(&mut copy, label, contents, edit, Blank::new(1))
}

/// The same where unit 0 asks for three names.
fn enrolled_counts(
    alloc: Global,
    index: &mut Index<Filter>,
    contents: &Contents,
    edit: &Edit,
) -> Result<(usize, u32), Fail>
    requires { All (λ s. s.unit < 1) index.old.enrolled }
{
    enrol(alloc, index, 0, "a")?;
    enrol(alloc, index, 1, "b")?;
    enrol(alloc, index, 2, "a")?;
    counts_at(index, contents, edit, &public(alloc))
}

fn counts_by(alloc: Global, contents: &Contents, edit: &Edit) -> Result<(usize, u32), Fail> {
    let mut index = Index::new(alloc);
    enrolled_counts(alloc, &mut index, contents, edit)
}

fn edited_counts(alloc: Global, edit: &Edit) -> Result<(usize, u32), Fail> {
    let contents = Contents::new(alloc).applied(edit)?;
    counts_by(alloc, &contents, edit)
}

fn counts_of(alloc: Global, name: &str) -> Result<(usize, u32), Fail> {
    let edit = adding(alloc, name)?;
    edited_counts(alloc, &edit)
}

#[test]
fn filters_are_tested_under_names_of_the_event_alone(rt: HostRuntime) -> Result<(), Fail> {
    for (name, receivers, tests) in [("a", 2, 2), ("b", 1, 1), ("c", 0, 0)] {
        assert_eq!(rt;
            counts_of(rt.alloc(), name)?,
            (receivers, tests),
            "of {name}"
        );
    }
    Ok(())
}

/// How many contaminations a commit gives for a filter, and how many a copy of them has.
fn edited_choices(alloc: Global, filter: &Filter, edit: &Edit) -> Result<(usize, usize), Fail> {
    let none = TagSet::new(alloc);
    let contents = Contents::new(alloc).applied(edit)?;
    let sets = contaminations(alloc, &none, &none, filter, &contents, edit)?;
    let copy = sets.copy()?;
    Ok((sets.as_slice().len(), copy.as_slice().len()))
}

fn choices_of(alloc: Global, edit: &Edit) -> Result<(usize, usize), Fail> {
    let filter = filter(alloc, "a")?;
    edited_choices(alloc, &filter, edit)
}

fn choices_by(alloc: Global, name: &str) -> Result<(usize, usize), Fail> {
    let edit = adding(alloc, name)?;
    choices_of(alloc, &edit)
}

#[test]
fn contaminations_are_copied(rt: HostRuntime) -> Result<(), Fail> {
    assert_eq!(rt; choices_by(rt.alloc(), "a")?, (1, 1));
    assert_eq!(rt; choices_by(rt.alloc(), "b")?, (0, 0));
    Ok(())
}
