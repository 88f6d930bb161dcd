//! Texts with their faults, and trees with their places, against what was worked out by hand.

use fir_base::{MemoryOut, Refused};
use std::alloc::Global;
use std::test::Fail;
use ver_lex::lex;
use ver_parse::{VerFault, Verilog, parse};

/// A text, and the line of its fault; or no line where it has a tree.
type Case = (&'static [u8], &'static [u8]);

const CASES: &[Case] = &[
    (b"module t(); endmodule", b""),
    (b"module t();", b"V02 1:12 syntax\n"),
    (b"", b"V02 1:1 syntax\n"),
    (b"module t(); endmodule x", b"V02 1:23 syntax\n"),
    (b"module t(); endmodule .", b"V01 1:23 byte 2e\n"),
    (b"module t() .; endmodule", b"V01 1:12 byte 2e\n"),
    (b"module t( .", b"V01 1:11 byte 2e\n"),
    (b"module t t( .", b"V02 1:10 syntax\n"),
    (b"module wire(); endmodule", b"V02 1:8 syntax\n"),
    (b"module t(input a, output b); assign b = a; endmodule", b""),
    (b"module t(input a,); endmodule", b"V02 1:18 syntax\n"),
    (b"module t(, input a); endmodule", b"V02 1:10 syntax\n"),
    (
        b"module t(input a output b); endmodule",
        b"V02 1:18 syntax\n",
    ),
    (
        b"module t((* clock *) input c, input [3:0] a); endmodule",
        b"",
    ),
    (
        b"module t((* clk *) input c); endmodule",
        b"V02 1:13 syntax\n",
    ),
    (b"module t(input [3:00] a); endmodule", b"V02 1:19 syntax\n"),
    (b"module t(input [00:0] a); endmodule", b""),
    (
        b"module t(input [4'h3:0] a); endmodule",
        b"V02 1:17 syntax\n",
    ),
    (
        b"module t(input [4'g:0] a); endmodule",
        b"V01 1:18 byte 27\n",
    ),
    (
        b"module t(); wire [3:0] a; reg r; reg [3:0] q; reg [3:0] m [0:15]; endmodule",
        b"",
    ),
    (b"module t(); reg m [1:15]; endmodule", b"V02 1:20 syntax\n"),
    (
        b"module t(); reg m [00:15]; endmodule",
        b"V02 1:20 syntax\n",
    ),
    (
        b"module t(); wire m [0:15]; endmodule",
        b"V02 1:20 syntax\n",
    ),
    (
        b"module t(); assign x = 4'g; endmodule",
        b"V02 1:24 syntax\n",
    ),
    (
        b"module t(); assign x = 8'h5_5; endmodule",
        b"V02 1:28 syntax\n",
    ),
    (
        b"module t(); assign x = 1'h0?a:b; endmodule",
        b"V02 1:28 syntax\n",
    ),
    (b"module t(); assign x = 1'h0 ?a:b; endmodule", b""),
    (b"module t(); assign x = c?a:b; endmodule", b""),
    (
        b"module t(); assign x = c?a; endmodule",
        b"V02 1:27 syntax\n",
    ),
    (
        b"module t(); always @(*) r <= a; endmodule",
        b"V02 1:21 syntax\n",
    ),
    (b"module t(); assign x = m[3]; endmodule", b""),
    (b"module t(); assign x = m[3:1] + m[0]; endmodule", b""),
    (b"module t(); assign x = m[2'h3]; endmodule", b""),
    (
        b"module t(); assign x = m[2'h3] + a; endmodule",
        b"V02 1:32 syntax\n",
    ),
    (
        b"module t(); assign x = a + m[2'h3]; endmodule",
        b"V02 1:30 syntax\n",
    ),
    (b"module t(); assign x = m[a]; endmodule", b""),
    (b"module t(); assign x = m[a[3]]; endmodule", b""),
    (b"module t(); assign x = m[{a, b}]; endmodule", b""),
    (
        b"module t(); assign x = m[a]:b; endmodule",
        b"V02 1:28 syntax\n",
    ),
    (
        b"module t(); assign x = m[3 ? a : b; endmodule",
        b"V02 1:28 syntax\n",
    ),
    (b"module t(); assign x = m[3] ? a : b; endmodule", b""),
    (
        b"module t(); assign x = ~a; assign y = &a; assign z = |a; assign w = ^a; endmodule",
        b"",
    ),
    (
        b"module t(); assign x = ~a + b; endmodule",
        b"V02 1:27 syntax\n",
    ),
    (
        b"module t(); assign x = ~m[b]; endmodule",
        b"V02 1:27 syntax\n",
    ),
    (
        b"module t(); assign x = a + b + c; endmodule",
        b"V02 1:30 syntax\n",
    ),
    (
        b"module t(); assign x = a == b; assign x = a != b; assign x = a << b; assign x = a >> b; endmodule",
        b"",
    ),
    (
        b"module t(); assign x = a <= b; assign x = a >= b; assign x = a < b; assign x = a > b; endmodule",
        b"",
    ),
    (
        b"module t(); assign x = a - b; assign x = a * b; assign x = a / b; assign x = a % b; endmodule",
        b"",
    ),
    (
        b"module t(); assign x = a & b; assign x = a | b; assign x = a ^ b; endmodule",
        b"",
    ),
    (
        b"module t(); assign x = a >>> b; endmodule",
        b"V02 1:26 syntax\n",
    ),
    (b"module t(); assign x = $signed(a) >>> b; endmodule", b""),
    (
        b"module t(); assign x = $signed(a) >>> $signed(b); endmodule",
        b"V02 1:39 syntax\n",
    ),
    (
        b"module t(); assign x = $signed(a) / $signed(b); endmodule",
        b"",
    ),
    (
        b"module t(); assign x = $signed(a) <= $signed(b); endmodule",
        b"",
    ),
    (
        b"module t(); assign x = $signed(a) + $signed(b); endmodule",
        b"V02 1:35 syntax\n",
    ),
    (
        b"module t(); assign x = $signed(a) / b; endmodule",
        b"V02 1:37 syntax\n",
    ),
    (
        b"module t(); assign x = a / $signed(b); endmodule",
        b"V02 1:28 syntax\n",
    ),
    (
        b"module t(); assign x = {{4{a[3]}}, a, 4'h3}; endmodule",
        b"",
    ),
    (
        b"module t(); assign x = {4{a, b}}; endmodule",
        b"V02 1:28 syntax\n",
    ),
    (
        b"module t(); assign x = {4, a}; endmodule",
        b"V02 1:26 syntax\n",
    ),
    (b"module t(); assign x = {0{a}}; endmodule", b""),
    (
        b"module t(); assign x = {}; endmodule",
        b"V02 1:25 syntax\n",
    ),
    (
        b"module t(); assign x = {a b}; endmodule",
        b"V02 1:27 syntax\n",
    ),
    (
        b"module t(); assign end = a; endmodule",
        b"V02 1:20 syntax\n",
    ),
    (
        b"module t(); assign x = end; endmodule",
        b"V02 1:24 syntax\n",
    ),
    (b"module t(); always @(posedge c) r <= a; endmodule", b""),
    (
        b"module t(); always @(posedge c) r = a; endmodule",
        b"V02 1:35 syntax\n",
    ),
    (
        b"module t(); always @(posedge c or posedge n) if (n) r <= 4'h9; else r <= a; endmodule",
        b"",
    ),
    (
        b"module t(); always @(posedge c or posedge n) if (n) r <= a; else r <= a; endmodule",
        b"V02 1:58 syntax\n",
    ),
    (
        b"module t(); always @(posedge c or posedge n) if (n) r <= 4'h9; endmodule",
        b"V02 1:64 syntax\n",
    ),
    (
        b"module t(); always @(posedge n) if (n) r <= 4'h9; endmodule",
        b"",
    ),
    (
        b"module t(); always @(posedge n) if (n) r <= 4'h9; else r <= a; endmodule",
        b"V02 1:51 syntax\n",
    ),
    (b"module t(); always @(posedge c) begin end endmodule", b""),
    (
        b"module t(); always @(posedge c) begin if (a) m[b] <= d; if (a) m[3'h2] <= {d, e}; end endmodule",
        b"",
    ),
    (
        b"module t(); always @(posedge c) begin if (a) m[3] <= d; end endmodule",
        b"V02 1:48 syntax\n",
    ),
    (
        b"module t(); always @(posedge c) begin r <= d; end endmodule",
        b"V02 1:39 syntax\n",
    ),
    (
        b"module t(); always @(posedge c) end endmodule",
        b"V02 1:33 syntax\n",
    ),
    (
        b"module t(); always (posedge c) r <= a; endmodule",
        b"V02 1:20 syntax\n",
    ),
    (
        b"module t(); initial r = 0; endmodule",
        b"V02 1:13 syntax\n",
    ),
    (
        b"module t(); wire\n  a;\n\n wire b endmodule",
        b"V02 4:9 syntax\n",
    ),
    (b"module t(); /* x", b"V01 1:13 byte 2f\n"),
    (b"module t() /* x", b"V01 1:12 byte 2f\n"),
    (b"module t(); assign clock = clock; endmodule", b""),
];

#[test]
fn faults_of_texts(rt: HostRuntime) -> Result<(), Fail> {
    for (number, (text, wanted)) in CASES.iter().enumerate() {
        let line = line_of(rt.alloc(), text)?;
        let line = String::from_utf8_lossy(rt.alloc(), line.as_slice())?;
        let wanted = String::from_utf8_lossy(rt.alloc(), wanted)?;
        assert_eq!(rt; line.as_str(), wanted.as_str(), "case {number}");
    }
    Ok(())
}

/// So many braces, one within the other, in a text of one assign.
fn nested(alloc: Global, count: usize) -> Result<Vec<u8>, MemoryOut> {
    let mut text = Vec::new(alloc);
    text.extend_from_slice(b"module t(); assign x = ")?;
    for _ in 0..count {
        text.push(b'{')?;
    }
    text.push(b'a')?;
    for _ in 0..count {
        text.push(b'}')?;
    }
    text.extend_from_slice(b"; endmodule")?;
    Ok(text)
}

#[test]
fn braces(rt: HostRuntime) -> Result<(), Fail> {
    let whole = nested(rt.alloc(), 256)?;
    let line = line_of(rt.alloc(), whole.as_slice())?;
    assert!(rt; line.as_slice() == b"".as_slice());
    let deep = nested(rt.alloc(), 257)?;
    let line = line_of(rt.alloc(), deep.as_slice())?;
    assert!(rt; line.as_slice() == b"V07 1:280 depth 257\n".as_slice());
    let deeper = nested(rt.alloc(), 1000)?;
    let line = line_of(rt.alloc(), deeper.as_slice())?;
    assert!(rt; line.as_slice() == b"V07 1:280 depth 257\n".as_slice());
    Ok(())
}

#[test]
fn places_of_a_tree(rt: HostRuntime) -> Result<(), Fail> {
    let text = b"module t(output [3:0] x); assign x = {a, 2'h3}; endmodule";
    let columns = columns_of(rt.alloc(), text)?;
    assert!(rt;
        columns.as_slice() == [1, 8, 10, 17, 18, 20, 23, 27, 34, 38, 39, 42, 49].as_slice()
    );
    Ok(())
}

/// The columns of the places of the text's tree, or nothing where it has none.
fn columns_of(alloc: Global, text: &[u8]) -> Result<Vec<u32>, MemoryOut> {
    let mut columns = Vec::new(alloc);
    let found = read_text(alloc, text)?;
    if let Read::Tree(tree) = &found {
        for place in tree.places.as_slice() {
            columns.push(place.col)?;
        }
    }
    Ok(columns)
}

/// The line of the text's fault, or nothing where it has a tree.
fn line_of(alloc: Global, text: &[u8]) -> Result<Vec<u8>, MemoryOut> {
    let mut line = Vec::new(alloc);
    let found = read_text(alloc, text)?;
    match &found {
        Read::Tree(_) => {}
        Read::Fault(fault) => fault.put_line(alloc, &mut line)?,
        Read::Long => line.extend_from_slice(b"long")?,
    }
    Ok(line)
}

/// What a text gives.
enum Read {
    Tree(Verilog),
    Fault(VerFault),
    /// It has more bytes than are read.
    Long,
}

// Not derived, so that a drop is a call, which is proved once.
impl Drop for Read {
    fn drop(self) {
        match self {
            Read::Tree(_) | Read::Fault(_) | Read::Long => {}
        }
    }
}

fn read_text(alloc: Global, text: &[u8]) -> Result<Read, MemoryOut> {
    if text.len() > 16777216 {
        return Ok(Read::Long);
    }
    let tokens = lex(alloc, text)?;
    match parse(alloc, &tokens) {
        Ok(tree) => Ok(Read::Tree(tree)),
        Err(Refused::Fault(fault)) => Ok(Read::Fault(fault)),
        Err(Refused::Memory) => Err(MemoryOut),
    }
}
