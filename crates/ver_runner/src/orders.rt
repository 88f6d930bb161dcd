//! The order in which the processes take their steps in a round, for a number.

ghost use Rattle.std.specs.Prelude.{◌≡◌, ◌-◌, IfOk, length};
ghost use Rattle.ver_order.specs.working.Rounds.{IsRound};
ghost use Rattle.ver_runner.specs.Orders.{next_seed, numbers_from, round_for, shuffled};

use fir_base::MemoryOut;
use std::alloc::Global;

/// The numbers of so many processes, shuffled for a number.
pub fn round_for(alloc: Global, count: usize, number: u32) -> Result<Vec<u64>, MemoryOut>
    ensures order { IfOk result (λ round. round.items ≡ round_for count number) }
    ensures round { IfOk result (λ round. IsRound count round.items) }
{
    let mut round = numbers(alloc, count)?;
    shuffle(round.as_mut_slice(), u64::from(number));
    Ok(round)
}

/// The numbers of so many processes, from 0 on.
fn numbers(alloc: Global, count: usize) -> Result<Vec<u64>, MemoryOut>
    ensures { IfOk result (λ round. round.items ≡ numbers_from 0 count) }
{
    let mut round = Vec::with_capacity(alloc, count)?;
    for number in 0..count as u64 {
        round.push(number)?;
    }
    Ok(round)
}

/// From the last entry down to the second, each changes places with one that is drawn from it and those before it.
fn shuffle(list: &mut [u64], number: u64)
    ensures { list.new ≡ shuffled (length list.old - 1) number list.old }
{
    let mut seed = number;
    for i in (1..list.len()).rev() {
        seed = next_seed(seed);
        list.swap(i, (seed >> 33) as usize % (i + 1));
    }
}

/// The next number of the linear congruence.
fn next_seed(seed: u64) -> u64
    ensures { result ≡ next_seed seed }
{
    seed.wrapping_mul(6364136223846793005)
        .wrapping_add(1442695040888963407)
}
