//! The fault of a line.

/// What is wrong with a line. Words are numbered from 1.
#[derive(Clone, Copy)]
pub enum Cause {
    /// X01: the word of that number is not spelled as its place needs, or an init line stands after a tick.
    Misspelled(u64),
    /// X02: so many words, of so many.
    Count(u64, u64),
    /// X03: the number in the word of that number is not below 2 to the power of this width in bits.
    Wide(u64, u32),
    /// X04: there is no such word, address or clock: where its bytes begin in the line, counted from 0, and
    /// how many they are.
    Absent(u64, u64),
    /// X05: more than 4096 bytes without the newline.
    Long,
}

/// A bad line: its number from 1, the place of its first byte in the trace from 0, and what is wrong.
#[derive(Clone, Copy)]
pub struct TraceFault {
    pub line: u64,
    pub start: u64,
    pub cause: Cause,
}
