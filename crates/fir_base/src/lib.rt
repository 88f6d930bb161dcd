//! Small types that the crates of both languages share: names and lists that contracts see as plain
//! lists, the outcome of a call that may be refused or run out of memory, kinds of bytes, and the readers
//! and writers of digits.
//! A tree made of these is, for a contract, a value without addresses or capacities: two trees are
//! equal exactly where they say the same.
#![tactic(auto)]

mod byte;
mod decimal;
mod direction;
mod hexadecimal;
mod name;
mod refused;
mod seq;
mod short_bytes;
mod words;

pub use byte::{is_digit, is_word_byte, is_word_start};
pub use decimal::{decimal_value, put_decimal};
pub use direction::Direction;
pub use hexadecimal::{digit_value, hex_digit, put_hex_byte, put_hexadecimal};
pub use name::Name;
pub use refused::{MemoryOut, Refused};
pub use seq::Seq;
pub use words::is_among;
