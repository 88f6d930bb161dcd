//! What is read of arrays.

ghost use Rattle.std.specs.Prelude.{◌≡◌, ◌+◌, ◌<◌, ◌≤◌, length};
ghost use Rattle.std.specs.List.{AllByRecursion};
ghost use Rattle.fir_bits.specs.Values.{IsBitVector};
ghost use Rattle.fir_net.specs.working.IsNet.{IsAddressed, IsNet};
ghost use Rattle.fir_tick.specs.working.ArraySpans.{AreSpans};
ghost use Rattle.fir_tick.specs.working.ArrayReads.{is_found, word_at, word_found, IsWordRead};
ghost use Rattle.fir_tick.specs.working.Views.{numbers as words_of};

use crate::spans::ArraySpan;
use fir_bits::Bits;
use fir_net::{ArrayRead, FlatNet};
use fir_work::{number_at, place};

/// What a leaf reads of an array: the places of the address and of what enables it, and where the array
/// stands in the state.
#[derive(Clone, Copy)]
pub struct WordRead {
    pub address: usize,
    pub enable: usize,
    pub span: ArraySpan,
}

/// What gives a leaf that reads an array its number.
pub fn word_read(net: &FlatNet, spans: &[ArraySpan], read: ArrayRead) -> WordRead
    requires spans { AreSpans net.now spans.now }
    requires there { read.array < length net.now.arrays }
    requires can { IsAddressed net.now.leaves net.now.nodes read.address read.enable }
    ensures { IsWordRead net.now read result }
{
    WordRead {
        address: place(net, read.address),
        enable: place(net, read.enable),
        span: spans[read.array],
    }
}

impl WordRead {
    /// The number of the word at the address, or 0 past the end or while it is not enabled.
    #[inline]
    pub fn run(&self, state: &[Bits], numbers: &[u128]) -> u128
        requires { self.now.span.begin + self.now.span.words ≤ length state.now }
        ensures { result ≡ word_found self.now (words_of state.now) numbers.now }
    {
        if self.is_found(numbers) {
            let address = number_at(numbers, self.address) as usize;
            state[self.span.begin + address].bits()
        } else {
            0
        }
    }

    /// The word at the address, or 0 of that width past the end or while it is not enabled.
    pub fn word(&self, width: u32, state: &[Bits], numbers: &[u128]) -> Bits
        requires room { self.now.span.begin + self.now.span.words ≤ length state.now }
        requires narrow { width ≤ 128 }
        requires whole { AllByRecursion IsBitVector state.now }
        ensures value { result ≡ word_at self.now width state.now numbers.now }
        ensures whole { IsBitVector result }
    {
        if self.is_found(numbers) {
            let address = number_at(numbers, self.address) as usize;
            state[self.span.begin + address]
        } else {
            Bits::of(width, 0)
        }
    }

    /// Whether there is a word to read.
    #[inline]
    fn is_found(&self, numbers: &[u128]) -> bool
        ensures { result ≡ is_found self.now numbers.now }
    {
        number_at(numbers, self.enable) == 1
            && number_at(numbers, self.address) < self.span.words as u128
    }
}
