//! The units of the tests.

ghost use Rattle.std.specs.Prelude.{◌≡◌, IfOk};
ghost use Rattle.df_brain.specs.Brain.{last_of, want_of};
ghost use Rattle.tests_of_hubs.specs.Playing.{hosted};

use crate::teller::Teller;
use df_brain::{Brain, Last, Want};
use df_filter::Filter;
use df_memory::NoMemory;
use df_rules::StepFunction;
use df_unit::Call;

/// What a unit does by itself.
#[derive(Drop)]
pub enum Player {
    /// It tells one event of one part, and then waits.
    Teller(Teller),
    /// It makes this subscription for instances, and then waits.
    Host(Filter),
    /// It waits.
    Idle,
}

impl StepFunction for Player {
    ghost use Rattle.tests_of_hubs.specs.Playing.{instance, next};

    ghost next = { next };

    ghost instance = { instance };
}

impl Brain for Player {
    ghost use Rattle.tests_of_hubs.specs.Playing.{makes_no_unit};

    fn next(&mut self, last: &Last) -> Result<Want, NoMemory> {
        match self {
            Player::Teller(teller) => teller.next(),
            Player::Host(filter) => host_next(filter, last),
            Player::Idle => Ok(Want::Wait),
        }
    }

    fn instance(&self, _sub: u32) -> Result<Player, NoMemory> {
        Ok(Player::Idle)
    }

    fn copy(&self) -> Result<Player, NoMemory> {
        match self {
            Player::Teller(teller) => Ok(Player::Teller(teller.copy()?)),
            Player::Host(filter) => Ok(Player::Host(copied(filter)?)),
            Player::Idle => Ok(Player::Idle),
        }
    }

    fn same(&self, other: &Player) -> bool {
        match (self, other) {
            (Player::Teller(one), Player::Teller(two)) => one.same(two),
            (Player::Host(one), Player::Host(two)) => one.same(two),
            (Player::Idle, Player::Idle) => true,
            _ => false,
        }
    }

    ghost makes_no_unit = { makes_no_unit };
}

fn copied(filter: &Filter) -> Result<Filter, NoMemory>
    ensures { IfOk result (λ f. f ≡ filter.now) }
{
    match filter.copy() {
        Ok(filter) => Ok(filter),
        Err(_) => Err(NoMemory),
    }
}

/// What a host wants: the subscription, as its first call.
fn host_next(filter: &Filter, last: &Last) -> Result<Want, NoMemory>
    ensures { IfOk result (λ w. want_of w ≡ hosted filter.now (last_of last.now)) }
{
    match last {
        Last::Start => {
            let filter = copied(filter)?;
            Ok(Want::Call(Call::SubscribeManaged { filter }))
        }
        Last::Reply(_) => Ok(Want::Wait),
    }
}
