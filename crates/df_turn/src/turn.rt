//! A turn: a unit's local calls, made by its brain apart from all other units.

ghost use Rattle.std.specs.Prelude.{◌≡◌, IfOk, OnErr, OnOk, false, true};
ghost use Rattle.df_rules.specs.Follows.{brain_of};
ghost use Rattle.df_turn.specs.code.Going.{IsEnded, IsGoing};

use crate::going::Going;
use crate::mind::Mind;
use crate::ready::Ready;
use df_brain::Brain;
use df_local::Local;
use df_memory::NoMemory;
use std::alloc::Global;
use std::marker::Model;

/// A turn of a unit, which a contract sees as the unit and its brain as the turn began, and
/// whether it was advanced.
#[derive(Drop)]
pub struct Turn<B: Brain> {
    base: Mind<B>,
    going: Going<B>,
    is_ready: bool,
    alloc: Global,
}

impl<B: Brain> Model for Turn<B> {
    ghost use Rattle.std.specs.Prelude.{◌≡◌, true};
    ghost use Rattle.df_turn.specs.Locally.{TurnState, turn_code};
    ghost use Rattle.df_turn.specs.code.Going.{IsEnded, IsGoing};
    ghost use Rattle.df_rules.specs.Follows.{brain_of};

    ghost Value = { TurnState B };

    ghost coded = { turn_code B.code };

    ghost view = { λ t. record {
      unit = t.going.run.base;
      state = t.base.0;
      last = t.base.1;
      is_ready = t.is_ready;
    } };

    ghost invariant = { λ t. IsGoing (brain_of B.next B.instance) t.base t.going
        × (t.is_ready ≡ true → IsEnded t.going) };
}

/// What a turn is made of.
#[derive(Drop)]
pub struct TurnParts<B: Brain> {
    /// The brain as the turn began.
    pub base: Mind<B>,
    pub going: Going<B>,
    pub is_ready: bool,
}

impl<B: Brain> Turn<B> {
    ghost use Rattle.df_turn.specs.Locally.{TurnState, ready_of};

    /// A turn of a unit with this brain, which is shared. The unit is copied by its first local call.
    pub fn begin(alloc: Global, unit: Local, mind: Mind<B>) -> Result<Turn<B>, NoMemory>
        ensures { IfOk result (λ t. t
            ≡ record { unit = unit; state = mind.0; last = mind.1; is_ready = false }) }
    {
        let going = Going::begin(alloc, unit, &mind)?;
        Ok(Turn {
            base: mind,
            going,
            is_ready: false,
            alloc,
        })
    }

    /// The unit as the turn began.
    pub fn unit(&self) -> &Local
        ensures { result.now ≡ self.now.unit }
    {
        self.going.run.base()
    }

    /// Its brain as the turn began.
    pub fn mind(&self) -> &Mind<B>
        ensures { result.now ≡ (self.now.state, self.now.last) }
    {
        &self.base
    }

    pub fn is_ready(&self) -> bool
        ensures { result ≡ self.now.is_ready }
    {
        self.is_ready
    }

    /// Makes the unit's local calls by its brain, and tells how they end. They are made apart from
    /// all other units: it takes no runtime and no lock. The brain's state is copied at most once.
    pub fn advance(&mut self) -> Result<Ready, NoMemory>
        ensures ready { IfOk result (λ r. r ≡ ready_of (brain_of B.next B.instance) self.old) }
        ensures ok { OnOk result (self.new ≡ record self.old { is_ready = true }) }
        ensures unchanged { OnErr result (self.new ≡ self.old) }
    {
        if self.is_ready {
            return Ok(self.going.ready());
        }
        self.going.go_on(self.alloc)?;
        self.is_ready = true;
        Ok(self.going.ready())
    }

    /// Lets the turn go.
    pub fn let_go(self) {
        let parts = self.into_parts();
        drop(parts.base);
        parts.going.let_go();
    }

    /// The turn's parts. Takes no memory.
    pub fn into_parts(self) -> TurnParts<B>
        ensures unit { result.going.run.base ≡ self.unit }
        ensures base { result.base ≡ (self.state, self.last) }
        ensures is_ready { result.is_ready ≡ self.is_ready }
        ensures going { IsGoing (brain_of B.next B.instance) result.base result.going }
        ensures ended { self.is_ready ≡ true → IsEnded result.going }
    {
        TurnParts {
            base: self.base,
            going: self.going,
            is_ready: self.is_ready,
        }
    }

    /// The turn of these parts. Takes no memory.
    pub fn of_parts(alloc: Global, parts: TurnParts<B>) -> Turn<B>
        requires going { IsGoing (brain_of B.next B.instance) parts.base parts.going }
        requires ended { parts.is_ready ≡ true → IsEnded parts.going }
        ensures { result ≡ record {
          unit = parts.going.run.base;
          state = parts.base.0;
          last = parts.base.1;
          is_ready = parts.is_ready;
        } }
    {
        Turn {
            base: parts.base,
            going: parts.going,
            is_ready: parts.is_ready,
            alloc,
        }
    }
}
