ghost use Rattle.std.specs.Prelude.{◌≡◌, ◌↔◌, All, IsTrue, IfOk, IfSome, option_copied, slice_get};
ghost use Rattle.df_ticks.specs.TickFile.{IsTick};

use df_memory::NoMemory;
use df_ticks::Tick;
use std::alloc::Global;
use std::marker::Model;
use std::sync::Arc;

/// Ticks in the form of a tick file, which their owners share.
#[derive(Drop)]
pub struct Ticks {
    ticks: Arc<Vec<Tick>>,
}

impl Model for Ticks {
    ghost use Rattle.std.specs.Prelude.{All, List};
    ghost use Rattle.std.specs.Arc.{arc_value};
    ghost use Rattle.std.specs.Coded.{coded_list};
    ghost use Rattle.df_ticks.specs.TickFile.{IsTick};
    ghost use Rattle.df_ticks.specs.contracts.tick.Tick as tick;
    ghost use Rattle.df_ticks.specs.declared.tick.Tick.{Tick};

    ghost Value = { List Tick };

    ghost coded = { coded_list tick.the_row.coded };

    ghost view = { λ t. (arc_value t.ticks).items };

    ghost invariant = { λ t. All IsTick (arc_value t.ticks).items };
}

impl Ticks {
    /// Lets the ticks go where there is no memory.
    pub fn new(alloc: Global, ticks: Vec<Tick>) -> Result<Ticks, NoMemory>
        requires { All IsTick ticks.items }
        ensures { IfOk result (λ t. t ≡ ticks.items) }
    {
        Ok(Ticks {
            ticks: Arc::new(alloc, ticks)?,
        })
    }

    pub fn as_slice(&self) -> &[Tick]
        ensures ticks { result.now ≡ self.now }
        ensures in_form { All IsTick self.now }
    {
        self.ticks.as_slice()
    }

    /// The tick at a place.
    pub fn get(&self, place: usize) -> Option<&Tick>
        ensures tick { option_copied result ≡ slice_get self.now place }
        ensures in_form { IfSome result (λ t. IsTick t.now) }
    {
        self.ticks.get(place)
    }

    /// The same ticks once more; they aren't copied.
    pub fn share(&self) -> Result<Ticks, NoMemory>
        ensures { IfOk result (λ t. t ≡ self.now) }
    {
        Ok(Ticks {
            ticks: Arc::try_clone(&self.ticks)?,
        })
    }

    /// Whether the two have the same ticks.
    pub fn same(&self, other: &Ticks) -> bool
        ensures { IsTrue result ↔ (self.now ≡ other.now) }
    {
        same_ticks(self.as_slice(), other.as_slice())
    }
}

fn same_ticks(a: &[Tick], b: &[Tick]) -> bool
    ensures { IsTrue result ↔ (a.now ≡ b.now) }
{
    if a.len() != b.len() {
        return false;
    }
    for i in 0..a.len() {
        let is_same = a[i].same(&b[i]);
        if !is_same {
            return false;
        }
    }
    true
}
