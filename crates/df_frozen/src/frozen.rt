//! Frozen values: shared, and never changed again.

ghost use Rattle.std.specs.Prelude.{◌≡◌, ◌↔◌, IsTrue, IfOk, IfErr, option_map};
ghost use Rattle.df_frozen.specs.Limits.{IsWithinLimits};
ghost use Rattle.df_frozen.specs.Place.{node_at};
ghost use Rattle.df_frozen.specs.Value.{plain};

use crate::freeze::{FreezeCause, Unfrozen};
use crate::step::Step;
use crate::value::Value;
use df_memory::NoMemory;
use std::alloc::Global;
use std::marker::Model;
use std::sync::Arc;

/// A value within the limits of freezing, which its owners share and nobody changes.
#[derive(Drop)]
pub struct Frozen {
    value: Arc<Value>,
}

impl Model for Frozen {
    ghost use Rattle.std.specs.Arc.{arc_value};
    ghost use Rattle.df_frozen.specs.Plain.{Plain};
    ghost use Rattle.df_frozen.specs.code.Code.{plain_code};

    ghost Value = { Plain };

    ghost coded = { plain_code };

    ghost use Rattle.df_frozen.specs.Value.{plain};
    ghost use Rattle.df_frozen.specs.Limits.{IsWithinLimits};

    ghost view = { λ f. plain (arc_value f.value) };

    ghost invariant = { λ f. IsWithinLimits (plain (arc_value f.value)) };
}

impl Frozen {
    /// Freezes a value that is known to be within the limits, without counting it. Where there is
    /// no memory the value comes back.
    pub fn new(alloc: Global, value: Value) -> Result<Frozen, Unfrozen>
        requires { IsWithinLimits (plain value) }
        ensures frozen { IfOk result (λ frozen. frozen ≡ plain value) }
        ensures back { IfErr result (λ e. e.value ≡ value) }
        ensures cause { IfErr result (λ e. e.cause ≡ FreezeCause.NoMemory) }
    {
        match Arc::new(alloc, value) {
            Ok(value) => Ok(Frozen { value }),
            Err(refused) => Err(Unfrozen {
                value: refused.value,
                cause: FreezeCause::NoMemory,
            }),
        }
    }

    /// Another reference to the value. NoMemory where the count of references is full.
    pub fn share(&self) -> Result<Frozen, NoMemory>
        ensures { IfOk result (λ frozen. frozen ≡ self.now) }
    {
        Ok(Frozen {
            value: Arc::try_clone(&self.value)?,
        })
    }

    /// The value itself. Takes no memory and no lock.
    pub fn value(&self) -> &Value
        ensures value { plain result.now ≡ self.now }
        ensures within { IsWithinLimits self.now }
    {
        &self.value
    }

    /// The value where the path leads. Takes no memory and no lock.
    pub fn at(&self, path: &[Step]) -> Option<&Value>
        ensures { option_map (λ v. plain v.now) result ≡ node_at path.now self.now }
    {
        let mut node = self.value();
        for step in path {
            node = node.child(step)?;
        }
        Some(node)
    }

    /// Whether the two have the same plain content. Takes no memory and no lock.
    pub fn plain_eq(&self, other: &Frozen) -> bool
        ensures { IsTrue result ↔ (self.now ≡ other.now) }
    {
        self.value().same(other.value())
    }
}
