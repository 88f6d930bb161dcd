//! The bytes that sinks in memory hold.

ghost use Rattle.std.specs.Prelude.{◌≡◌, ◌+◌, ◌≤◌, ◌++◌, ◌⊎◌, [], length, take, vec_len, vec_capacity, IsOk};
ghost use Rattle.fir_io.specs.working.Memory.{HoldsPiece};

use crate::ports::PutFault;

/// Appends a piece, or for want of memory nothing. An empty piece takes no memory.
pub fn append(held: &mut Vec<u8>, piece: &[u8]) -> Result<(), PutFault>
    ensures holds { HoldsPiece piece.now held.old.items held.new.items result }
    ensures empty { piece.now ≡ [] → IsOk result }
{
    if piece.is_empty() {
        return Ok(());
    }
    match held.extend_from_slice(piece) {
        Ok(()) => Ok(()),
        Err(_) => Err(PutFault::Memory),
    }
}

/// The first `count` bytes of a piece, or all of it.
fn front_of(piece: &[u8], count: u64) -> &[u8]
    ensures front { result.now ≡ take count piece.now }
    ensures length { length result.now ≤ length piece.now }
{
    if count < piece.len() as u64 {
        &piece[..count as usize]
    } else {
        piece
    }
}

/// Appends the first `count` bytes of a piece, or all of it; for want of memory nothing.
pub fn append_front(held: &mut Vec<u8>, piece: &[u8], count: u64)
    ensures grew { (held.new.items ≡ held.old.items ++ take count piece.now)
        ⊎ (held.new.items ≡ held.old.items) }
    ensures room { vec_len held.old + length piece.now ≤ vec_capacity held.old
        → held.new.items ≡ held.old.items ++ take count piece.now }
{
    let _ = held.extend_from_slice(front_of(piece, count));
}
