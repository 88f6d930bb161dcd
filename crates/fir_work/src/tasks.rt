//! The task of a leaf or a node.

ghost use Rattle.std.specs.Prelude.{◌≡◌, ◌<◌, ◌≤◌, Some, length, slice_get};
ghost use Rattle.fir_net.specs.declared.node.Node.{Node as Given};
ghost use Rattle.fir_net.specs.working.IsNet.{CanRead, IsNet};
ghost use Rattle.fir_work.specs.working.Tasks.{IsFitTask, IsNodeTask, IsShownTask};

use crate::fit_work::{fit_work, is_plain};
use crate::places::place;
use crate::task::Task;
use crate::types::type_read;
use crate::usual::{alone, usual_task};
use crate::work::Work;
use fir_ast::LeafId;
use fir_net::{FlatNet, Read};

/// The task of the node of that number.
pub fn node_task(net: &FlatNet, number: usize) -> Task
    requires whole { IsNet net.now }
    requires there { number < length net.now.nodes }
    ensures { (n : Given) → slice_get net.now.nodes number ≡ Some n → IsNodeTask net.now n result }
{
    match usual_task(net, &net.nodes.as_slice()[number]) {
        Some(task) => task,
        None => alone(Work::Node(number)),
    }
}

/// The task of what is read at a width of at most 128 bits: extended by its own sign, or cut.
pub fn fit_task(net: &FlatNet, read: Read, width: u32) -> Task
    requires whole { IsNet net.now }
    requires can { CanRead net.now.leaves net.now.nodes read }
    requires narrow { width ≤ 128 }
    ensures { IsFitTask net.now read width result }
{
    let work = fit_work(type_read(net, &read), width);
    let first = place(net, read);
    Task {
        first,
        second: 0,
        third: 0,
        work,
    }
}

/// The task of a register of that width under an asynchronous reset: its init while the condition is 1,
/// else the number that it holds.
pub fn shown_task(net: &FlatNet, leaf: LeafId, width: u32, condition: Read, init: Read) -> Task
    requires whole { IsNet net.now }
    requires leaf { leaf < length net.now.leaves }
    requires condition { CanRead net.now.leaves net.now.nodes condition }
    requires init { CanRead net.now.leaves net.now.nodes init }
    requires narrow { width ≤ 128 }
    ensures { IsShownTask net.now leaf width condition init result }
{
    let ty = type_read(net, &init);
    let work = if ty.width <= width && is_plain(ty, width) {
        Work::Choose
    } else {
        Work::Show {
            signed: ty.signed,
            width: ty.width,
            to: width,
        }
    };
    Task {
        first: place(net, condition),
        second: place(net, init),
        third: leaf.number(),
        work,
    }
}
