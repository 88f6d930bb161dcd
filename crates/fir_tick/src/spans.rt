//! Where the words of arrays stand in the state.

ghost use Rattle.std.specs.Prelude.{◌≡◌, IfOk, length, replicate};
ghost use Rattle.fir_net.specs.working.IsNet.{IsNet};
ghost use Rattle.fir_tick.specs.working.ArraySpans.{no_span, AreSpans};

use fir_base::MemoryOut;
use fir_net::FlatNet;
use std::alloc::Global;

/// Where an array begins in the state, and how many words it has there: an array of no bits has none.
#[derive(Clone, Copy)]
pub struct ArraySpan {
    pub begin: usize,
    pub words: usize,
}

/// An array that is not in the state.
const NO_SPAN: ArraySpan = ArraySpan { begin: 0, words: 0 };

/// Where each array of a net stands, found in one walk.
pub fn array_spans(alloc: Global, net: &FlatNet) -> Result<Vec<ArraySpan>, MemoryOut>
    requires { IsNet net.now }
    ensures { IfOk result (λ v. AreSpans net.now v.items) }
{
    let count = net.arrays.as_slice().len();
    let mut spans = vec![in alloc; NO_SPAN; count]?;
    find_spans(net, &mut spans);
    Ok(spans)
}

/// Finds the arrays of the state, one behind the other behind the words of registers and pipes.
fn find_spans(net: &FlatNet, spans: &mut [ArraySpan])
    requires whole { IsNet net.now }
    requires empty { spans.old ≡ replicate (length net.now.arrays) no_span }
    ensures { AreSpans net.now spans.new }
{
    let arrays = net.arrays.as_slice();
    let order = net.array_order.as_slice();
    let mut begin = net.state.as_slice().len();
    for number in order {
        let words = arrays[*number].words;
        spans[*number] = ArraySpan { begin, words };
        begin += words;
    }
}
