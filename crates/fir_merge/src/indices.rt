//! The conditions that dynamic indices pick an element (FIRRTL spec, "Sub-accesses").

ghost use Rattle.std.specs.Prelude.{◌≡◌, IfOk, IfSome, length};
ghost use Rattle.fir_merge.specs.working.NodeTerms.{IsBelow};
ghost use Rattle.fir_merge.specs.working.Bounds.{Grown};
ghost use Rattle.fir_merge.specs.working.Conditions.{ConditionStands, NumberStands};

use crate::bound::Bound;
use crate::net_nodes::NetNodes;
use crate::values::{add_test, add_value};
use fir_base::MemoryOut;
use fir_bits::laws::least_width_is_least;
use fir_bits::{Bits, Num, PrimOp, least_width};
use std::alloc::Global;

/// Adds a number as a UInt of the least width.
fn add_number(net: &mut NetNodes, number: u128) -> Result<Bound, MemoryOut>
    ensures grown { IfOk result (Grown net.old net.new) }
    ensures stands { IfOk result (NumberStands net.new number) }
{
    least_width_is_least();
    let width = least_width(false, false, number);
    let value = Num {
        signed: false,
        value: Bits::of(width, number),
    };
    Ok(add_value(net, value)?)
}

/// Adds the condition that the index is the number, and that the earlier condition is met, where there is one.
pub fn add_condition(
    alloc: Global,
    net: &mut NetNodes,
    earlier: Option<Bound>,
    index: Bound,
    number: u128,
) -> Result<Bound, MemoryOut>
    requires earlier { IfSome earlier (λ b. IsBelow (length net.old) b.read) }
    requires index { IsBelow (length net.old) index.read }
    ensures grown { IfOk result (Grown net.old net.new) }
    ensures stands { IfOk result (ConditionStands net.old net.new earlier index number) }
{
    let literal = add_number(net, number)?;
    let equal = add_test(alloc, net, PrimOp::Eq, index, literal)?;
    match earlier {
        None => Ok(equal),
        Some(earlier) => add_test(alloc, net, PrimOp::And, earlier, equal),
    }
}
