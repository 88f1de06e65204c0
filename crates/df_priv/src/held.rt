//! The privileges that a unit holds.
ghost use Rattle.std.specs.Prelude.{◌≡◌, IsTrue, ◌↔◌, IfOk, OnOk, OnErr, []};
ghost use Rattle.df_label.specs.Ascending.{IsAscending};
ghost use Rattle.df_label.specs.Privilege.{privilege_cmp};
ghost use Rattle.df_priv.specs.Held.{holds, grant, grant_all};

use df_label::{Privilege, Privileges};
use df_memory::NoMemory;
use std::alloc::Global;
use std::marker::Model;

/// The privileges that a unit holds. A contract sees them as the ascending list of privileges
/// without repeats. No call takes one away.
#[derive(Debug, Drop)]
pub struct Held {
    privileges: Privileges,
}

impl Model for Held {
    ghost use Rattle.std.specs.Prelude.{List};
    ghost use Rattle.df_label.specs.declared.privilege.Privilege.{Privilege};

    ghost Value = { List Privilege };

    ghost view = { λ h. h.privileges };
}

impl Held {
    /// Nothing is held.
    pub const fn new(alloc: Global) -> Held
        ensures { result ≡ [] }
    {
        Held {
            privileges: Privileges::new(alloc),
        }
    }

    pub fn holds(&self, p: &Privilege) -> bool
        ensures { result ≡ holds self.now p.now }
    {
        self.privileges.contains(p)
    }

    /// Holds a privilege from now on.
    pub fn grant(&mut self, p: &Privilege) -> Result<(), NoMemory>
        ensures ok { OnOk result (self.new ≡ grant self.old p.now) }
        ensures err { OnErr result (self.new ≡ self.old) }
    {
        self.privileges.add(p)
    }

    /// Holds all of these from now on, or none more, without a copy of what is held where nobody
    /// shares it.
    pub fn grant_all(&mut self, privileges: Vec<Privilege>) -> Result<(), NoMemory>
        ensures ok { OnOk result (self.new ≡ grant_all self.old privileges.items) }
        ensures err { OnErr result (self.new ≡ self.old) }
    {
        self.privileges.add_all(privileges)
    }

    /// The privileges in ascending order.
    pub fn as_slice(&self) -> &[Privilege]
        ensures value { result.now ≡ self.now }
        ensures ascending { IsAscending privilege_cmp self.now }
    {
        self.privileges.as_slice()
    }

    /// As many privileges, with no allocation.
    pub fn copy(&self) -> Result<Held, NoMemory>
        ensures value { IfOk result (λ h. h ≡ self.now) }
        ensures ascending { IsAscending privilege_cmp self.now }
    {
        Ok(Held {
            privileges: self.privileges.copy()?,
        })
    }

    pub fn same(&self, other: &Held) -> bool
        ensures { IsTrue result ↔ self.now ≡ other.now }
    {
        self.privileges.same(&other.privileges)
    }
}

/// Those privileges and no others.
impl From<Privileges> for Held {
    ghost from_gives = { λ privileges held. held ≡ privileges };

    fn from(privileges: Privileges) -> Held {
        Held { privileges }
    }
}
