//! Instances of managed subscriptions.

ghost use Rattle.std.specs.Prelude.{◌≡◌, ◌++◌, map, OnOk};
ghost use Rattle.df_instances.specs.code.Chosen.{instance_at};

use df_label::TagSet;
use df_memory::NoMemory;
use std::marker::Model;

/// An instance: the place of its managed subscription, and its contamination.
#[derive(Drop)]
pub struct Instance {
    pub place: usize,
    pub s: TagSet,
}

/// Instances, in order.
#[derive(Drop)]
pub struct Instances {
    list: Vec<Instance>,
}

impl Model for Instances {
    ghost use Rattle.std.specs.Prelude.{List};
    ghost use Rattle.std.specs.Coded.{coded_list};
    ghost use Rattle.df_instances.specs.declared.instances.Instance.{Instance};
    ghost use Rattle.df_instances.specs.contracts.instances.Instance as instance;

    ghost Value = { List Instance };

    ghost coded = { coded_list instance.the_row.coded };

    ghost view = { λ i. i.list.items };
}

impl Instances {
    /// Takes no memory.
    pub(crate) fn new(list: Vec<Instance>) -> Instances
        ensures { result ≡ list.items }
    {
        Instances { list }
    }

    pub fn as_slice(&self) -> &[Instance]
        ensures { result.now ≡ self.now }
    {
        self.list.as_slice()
    }
}

/// Appends the instances of the subscription at a place, one of each contamination.
pub(crate) fn put_instances(
    place: usize,
    sets: &[TagSet],
    to: &mut Vec<Instance>,
) -> Result<(), NoMemory>
    ensures { OnOk result (to.new.items ≡ to.old.items ++ map (instance_at place) sets.now) }
{
    for set in sets {
        let s = set.copy()?;
        to.push(Instance { place, s })?;
    }
    Ok(())
}
