//! The text of the circuit `Gen`.

ghost use Rattle.std.specs.Prelude.{◌≡◌, ◌≤◌, ◌+◌, ◌++◌, IfOk, OnOk, codes, length};
ghost use Rattle.fir_gen.specs.GenText.{first_lines, gen_text, head_lines, last_line, register_line, register_name, step_lines};

use fir_base::{MemoryOut, put_decimal};
use std::alloc::Global;

/// The text of the circuit with `n` registers, of which 1 to 4096 are asked for.
pub fn gen_circuit(alloc: Global, n: u32) -> Result<Vec<u8>, MemoryOut>
    requires some { 1 ≤ n }
    requires few { n ≤ 4096 }
    ensures text { IfOk result (λ text. text.items ≡ gen_text n) }
    ensures short { IfOk result (λ text. length text.items ≤ 16777216) }
{
    let mut text = Vec::new(alloc);
    put_head(&mut text)?;
    for j in 0..n - 1 {
        put_step(&mut text, j)?;
    }
    put_last_line(&mut text, n - 1)?;
    Ok(text)
}

/// Appends the lines of the ports and of register 0.
fn put_head(text: &mut Vec<u8>) -> Result<(), MemoryOut>
    ensures { OnOk result (text.new.items ≡ text.old.items ++ (head_lines ++ first_lines)) }
{
    text.extend_from_slice(
        b"circuit Gen :\n  module Gen :\n    input clock : Clock\n    input reset : UInt<1>\n    input x : UInt<16>\n    output y : UInt<16>\n",
    )?;
    put_register_line(text, 0)?;
    text.extend_from_slice(b"    r0 <= tail(add(r0, x), 1)\n")?;
    Ok(())
}

/// Appends the line by which the output shows the register of that number.
fn put_last_line(text: &mut Vec<u8>, k: u32) -> Result<(), MemoryOut>
    ensures { OnOk result (text.new.items ≡ text.old.items ++ last_line k) }
{
    put_name(text, b"    y <= ", k)?;
    text.extend_from_slice(b"\n")?;
    Ok(())
}

/// Appends the words, and the name of the register of that number.
fn put_name(text: &mut Vec<u8>, words: &[u8], k: u32) -> Result<(), MemoryOut>
    ensures { OnOk result (text.new.items ≡ text.old.items ++ words.now ++ register_name k) }
{
    text.extend_from_slice(words)?;
    text.extend_from_slice(b"r")?;
    put_decimal(text, u128::from(k))
}

/// Appends the line that declares the register of that number.
fn put_register_line(text: &mut Vec<u8>, k: u32) -> Result<(), MemoryOut>
    ensures { OnOk result (text.new.items ≡ text.old.items ++ register_line k) }
{
    put_name(text, b"    reg ", k)?;
    text.extend_from_slice(b" : UInt<16>, clock with : (reset => (reset, UInt<16>(")?;
    put_decimal(text, u128::from(k))?;
    text.extend_from_slice(b")))\n")?;
    Ok(())
}

/// Appends the lines of the register behind that of number `j`.
fn put_step(text: &mut Vec<u8>, j: u32) -> Result<(), MemoryOut>
    requires { j ≤ 4096 }
    ensures { OnOk result (text.new.items ≡ text.old.items ++ step_lines j) }
{
    put_register_line(text, j + 1)?;
    text.extend_from_slice(b"    when bits(x, 0, 0) :\n")?;
    put_xor(text, j)?;
    text.extend_from_slice(b"    else :\n")?;
    put_sum(text, j)?;
    Ok(())
}

/// Appends the connect by which the register behind that of number `j` takes it in by `xor`.
fn put_xor(text: &mut Vec<u8>, j: u32) -> Result<(), MemoryOut>
    requires { j ≤ 4096 }
    ensures { OnOk result (text.new.items ≡ text.old.items ++ (codes "      " ++ register_name (j + 1) ++ codes " <= xor(" ++ register_name j ++ codes ", " ++ register_name (j + 1) ++ codes ")\n")) }
{
    put_name(text, b"      ", j + 1)?;
    put_name(text, b" <= xor(", j)?;
    put_name(text, b", ", j + 1)?;
    text.extend_from_slice(b")\n")?;
    Ok(())
}

/// Appends the connect by which the register behind that of number `j` adds it, without the carry.
fn put_sum(text: &mut Vec<u8>, j: u32) -> Result<(), MemoryOut>
    requires { j ≤ 4096 }
    ensures { OnOk result (text.new.items ≡ text.old.items ++ (codes "      " ++ register_name (j + 1) ++ codes " <= tail(add(" ++ register_name (j + 1) ++ codes ", " ++ register_name j ++ codes "), 1)\n")) }
{
    put_name(text, b"      ", j + 1)?;
    put_name(text, b" <= tail(add(", j + 1)?;
    put_name(text, b", ", j)?;
    text.extend_from_slice(b"), 1)\n")?;
    Ok(())
}
