ghost use Rattle.std.specs.Prelude.{◌≡◌, ◌%◌, ◌-◌, ◌+◌, min, max, All, IfOk, OnOk, length};
ghost use Rattle.rand_pcg.specs.Pcg.{pcg32};
ghost use Rattle.df_ticks.specs.TickFile.{IsTick};
ghost use Rattle.df_gen.specs.Generated.{generated, tick_at, prices_after, moved, symbol_at};

use df_frozen::Words;
use df_memory::NoMemory;
use df_ticks::Tick;
use rand_core::SeedableRng;
use rand_core::utils::NextWord;
use rand_pcg::Pcg32;
use std::alloc::Global;

/// The first ticks of a key: four symbols, whose prices begin at 10,000 and walk.
pub fn gen_ticks(alloc: Global, key: u64, n: u32) -> Result<Vec<Tick>, NoMemory>
    ensures ticks { IfOk result (λ v. v.items ≡ generated key n) }
    ensures in_form { IfOk result (λ v. All IsTick v.items) }
    ensures count { IfOk result (λ v. length v.items ≡ n) }
{
    let mut rng = Pcg32::seed_from_u64(key);
    let mut prices = [10_000u32; 4];
    let mut ticks = Vec::with_capacity(alloc, n as usize)?;
    for _made in 0..n {
        ticks.push(next_tick(alloc, &mut rng, &mut prices)?)?;
    }
    Ok(ticks)
}

/// The tick of the next two words.
fn next_tick(alloc: Global, rng: &mut Pcg32, prices: &mut [u32; 4]) -> Result<Tick, NoMemory>
    ensures tick { IfOk result (λ t.
        t ≡ tick_at prices.old (pcg32 rng.old).0 (pcg32 (pcg32 rng.old).1).0) }
    ensures prices { OnOk result (prices.new
        ≡ prices_after prices.old (pcg32 rng.old).0 (pcg32 (pcg32 rng.old).1).0) }
    ensures rng { OnOk result (rng.new ≡ (pcg32 (pcg32 rng.old).1).1) }
{
    let place = (rng.next_word() % 4) as usize;
    let price = moved(prices[place], rng.next_word());
    prices[place] = price;
    Ok(Tick {
        symbol: Words::new(alloc, symbol_at(place))?,
        price: i64::from(price),
    })
}

/// A price after a word.
fn moved(price: u32, word: u32) -> u32
    ensures { result ≡ moved price word }
{
    (u64::from(price) + u64::from(word % 201))
        .saturating_sub(100)
        .max(1)
        .min(1_000_000) as u32
}

fn symbol_at(place: usize) -> &'static str
    ensures { result.now ≡ symbol_at place }
{
    match place {
        0 => "AAA",
        1 => "BBB",
        2 => "CCC",
        _ => "DDD",
    }
}
