//! The values before the first tick.

ghost use Rattle.std.specs.Prelude.{◌≡◌, ◌++◌, IfOk, OnOk, length, replicate};
ghost use Rattle.ver_ast.specs.Nets.{clocks};
ghost use Rattle.ver_sim.specs.working.ShownWords.{words_put};
ghost use Rattle.ver_sim.specs.working.Start.{clock_numbers, first_values};
ghost use Rattle.ver_sim.specs.working.Tables.{Know};

use crate::plan::Plan;
use crate::shown::show_words;
use crate::tables::Tables;
use fir_base::{Direction, MemoryOut};
use std::alloc::Global;
use ver_ast::Verilog;

/// The values before the first tick: nets are 0, but registers without an asynchronous block show their words.
pub fn start_values(
    alloc: Global,
    tables: &Tables,
    v: &Verilog,
    plan: &Plan,
    state: &[u128],
) -> Result<Vec<u128>, MemoryOut>
    requires { Know v.now tables.now }
    ensures { IfOk result (λ values. values.items ≡ words_put plan.now.shown.items state.now (first_values v.now)) }
{
    let mut values = zeros(alloc, tables.net_count())?;
    put_clock_numbers(v, &mut values)?;
    show_words(plan.shown.as_slice(), state, values.as_mut_slice());
    Ok(values)
}

/// Zeros, so many.
pub fn zeros(alloc: Global, count: usize) -> Result<Vec<u128>, MemoryOut>
    ensures { IfOk result (λ values. values.items ≡ replicate count 0) }
{
    Ok(vec![in alloc; 0; count]?)
}

/// Appends the number of each clock.
fn put_clock_numbers(v: &Verilog, values: &mut Vec<u128>) -> Result<(), MemoryOut>
    ensures { OnOk result (values.new.items ≡ values.old.items ++ clock_numbers 0 (clocks v.now)) }
{
    let mut number = 0u64;
    for port in v.ports.as_slice() {
        if let Direction::Input = port.direction
            && port.is_clock
        {
            values.push(u128::from(number))?;
            number += 1;
        }
    }
    Ok(())
}
