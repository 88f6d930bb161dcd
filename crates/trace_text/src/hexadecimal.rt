//! Numbers in hexadecimal.

ghost use Rattle.std.specs.Prelude.{◌≡◌, ◌++◌, OnOk, false, replicate};
ghost use Rattle.std.specs.Fmt.{digits};
ghost use Rattle.trace_text.specs.OutputLines.{padded};

use fir_base::{MemoryOut, hex_digit};

/// Appends the number in hexadecimal digits, whose letters are in lower case, with leading zeros up to so
/// many digits.
#[tactic(auto, using(crate::proofs::PaddedDigits::padded_one, crate::proofs::PaddedDigits::padded_more))]
pub fn put_padded(out: &mut Vec<u8>, count: u32, n: u128) -> Result<(), MemoryOut>
    ensures { OnOk result (out.new.items ≡ out.old.items ++ padded count (digits 16 false n)) }
{
    let before = count.saturating_sub(1);
    if n < 16 {
        put_zeros(out, before)?;
    } else {
        put_padded(out, before, n / 16)?;
    }
    out.push(hex_digit((n % 16) as u8))?;
    Ok(())
}

#[tactic(auto, using(crate::proofs::PaddedDigits::zero_more))]
fn put_zeros(out: &mut Vec<u8>, count: u32) -> Result<(), MemoryOut>
    ensures { OnOk result (out.new.items ≡ out.old.items ++ replicate count 48) }
{
    for _ in 0..count {
        out.push(b'0')?;
    }
    Ok(())
}
