//! One type for the brains of all units: a hub has brains of one type.

use crate::doctor::Doctor;
use crate::office::Office;
use crate::ward::Ward;
use df_brain::{Brain, Last, Want};
use df_memory::NoMemory;
use df_rules::StepFunction;

/// The brain of a unit of the ward.
#[derive(Drop)]
pub enum Role {
    Ward(Ward),
    Doctor(Doctor),
    Office(Office),
}

impl StepFunction for Role {
    ghost use Rattle.ward_units.specs.Role.{instance, next};

    ghost next = { next };

    ghost instance = { instance };
}

impl Brain for Role {
    ghost use Rattle.ward_units.specs.Role.{makes_no_unit};

    fn next(&mut self, last: &Last) -> Result<Want, NoMemory> {
        match self {
            Role::Ward(ward) => ward.next(last),
            Role::Doctor(doctor) => doctor.next(last),
            Role::Office(office) => office.next(last),
        }
    }

    /// No unit asks for instances. One would have its owner's brain.
    fn instance(&self, _sub: u32) -> Result<Role, NoMemory> {
        self.copy()
    }

    fn copy(&self) -> Result<Role, NoMemory> {
        match self {
            Role::Ward(ward) => Ok(Role::Ward(ward.copy()?)),
            Role::Doctor(doctor) => Ok(Role::Doctor(doctor.copy()?)),
            Role::Office(office) => Ok(Role::Office(office.copy()?)),
        }
    }

    fn same(&self, other: &Role) -> bool {
        match (self, other) {
            (Role::Ward(a), Role::Ward(b)) => a.same(b),
            (Role::Doctor(a), Role::Doctor(b)) => a.same(b),
            (Role::Office(a), Role::Office(b)) => a.same(b),
            _ => false,
        }
    }

    ghost makes_no_unit = { makes_no_unit };
}
