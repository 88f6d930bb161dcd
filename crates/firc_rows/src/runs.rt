//! Runs of the program over circuits in memory.

use crate::outcome::{Failing, Run, end_as_they_are_to, entries, outcome_of, owned};
use crate::sure::sure_status;
use fir_io::{CallFault, SureFiles};
use std::test::Fail;

const EMIT: &[&str] = &["firc", "emit", "f.fir"];

const SIM: &[&str] = &["firc", "sim", "f.fir", "t"];

const SIM_STATE: &[&str] = &["firc", "sim", "f.fir", "t", "--state"];

const XOR: &[u8] =
    b"circuit T :\n  module T :\n    input a : UInt<4>\n    input b : UInt<4>\n    output o : UInt<4>\n    o <= xor(a, b)\n";

const XOR_TEXT: &[u8] =
    b"module T(\n  input [3:0] a,\n  input [3:0] b,\n  output [3:0] o\n);\n  wire [3:0] _n0;\n  assign _n0 = a ^ b;\n  assign o = _n0;\nendmodule\n";

const WIRE: &[u8] =
    b"circuit T :\n  module T :\n    input a : UInt<8>\n    output o : UInt<8>\n    o <= a\n";

/// A register of four bits that takes, at each edge, its exclusive or with the input.
const ACCUMULATOR: &[u8] =
    b"circuit T :\n  module T :\n    input clock : Clock\n    input a : UInt<4>\n    output o : UInt<4>\n    reg r : UInt<4>, clock\n    r <= xor(r, a)\n    o <= r\n";

/// A memory of three words, with a reader that reads late and two writers, of which the second
/// wins where both write one word.
const MEMORY: &[u8] =
    b"circuit T :\n  module T :\n    input clock : Clock\n    input a : UInt<2>\n    input b : UInt<2>\n    input u : UInt<4>\n    input v : UInt<4>\n    input w : UInt<1>\n    output o : UInt<4>\n    mem m :\n      data-type => UInt<4>\n      depth => 3\n      read-latency => 1\n      write-latency => 1\n      reader => r\n      writer => p\n      writer => q\n      read-under-write => new\n    m.r.addr <= a\n    m.r.en <= UInt<1>(1)\n    m.r.clk <= clock\n    m.p.addr <= a\n    m.p.en <= w\n    m.p.clk <= clock\n    m.p.data <= u\n    m.p.mask <= UInt<1>(1)\n    m.q.addr <= b\n    m.q.en <= w\n    m.q.clk <= clock\n    m.q.data <= v\n    m.q.mask <= UInt<1>(1)\n    o <= m.r.data\n";

/// Two ticks, each of which prints three bytes.
const TICKS: &[u8] = b"- 1\n- 2\n";

const USAGE: &[u8] =
    b"usage: firc check FILE | lower FILE | emit FILE | sim FILE TRACE [--state] | vsim VFILE TRACE [--state] [--order N] | gen N\n";

/// Texts that are compiled or refused, and words that ask for nothing.
const EMITS: &[Run] = &[
    (EMIT, XOR, b"", Failing::Nothing, 0, XOR_TEXT, b""),
    (
        EMIT,
        b"",
        b"",
        Failing::Nothing,
        1,
        b"",
        b"E04 1:1 syntax\n",
    ),
    (
        EMIT,
        b"circuit T :\n  module T :\n    input a : UInt<4>\n    input b : UInt<4>\n    output o : UInt<4>\n    o <= xor(a, c)\n",
        b"",
        Failing::Nothing,
        1,
        b"",
        b"E08 6:17 unknown c\n",
    ),
    (
        EMIT,
        b"circuit T :\n  module T :\n    input a : UInt<1>\n    input b : UInt<4>\n    output o : UInt<4>\n    when a :\n",
        b"",
        Failing::Nothing,
        1,
        b"",
        b"E24 5:12 undriven o\n",
    ),
    (
        EMIT,
        b"circuit T :\n  module T :\n    input clk : Clock\n    output c : Clock\n    c <= clk\n",
        b"",
        Failing::Nothing,
        0,
        b"module T(\n  (* clock *) input clk,\n  (* clock *) output c\n);\n  assign c = clk;\nendmodule\n",
        b"",
    ),
    (
        EMIT,
        b"circuit T :\n  module Inner :\n    input a : UInt<2>\n    output o : UInt<2>\n    o <= not(a)\n  module T :\n    input x : UInt<2>\n    output y : UInt<2>\n    inst i of Inner\n    i.a <= x\n    y <= i.o\n",
        b"",
        Failing::Nothing,
        0,
        b"module T(\n  input [1:0] x,\n  output [1:0] y\n);\n  wire [1:0] _n0;\n  assign _n0 = ~x;\n  assign y = _n0;\nendmodule\n",
        b"",
    ),
    (
        EMIT,
        b"circuit T :\n  module T :\n    input a : UInt<2>\n    input e : UInt<1>\n    output o : UInt<4>\n    mem m :\n      data-type => UInt<4>\n      depth => 4\n      read-latency => 0\n      write-latency => 1\n      reader => r\n    m.r.addr <= a\n    m.r.en <= e\n    m.r.clk is invalid\n    o <= m.r.data\n",
        b"",
        Failing::Nothing,
        0,
        b"module T(\n  input [1:0] a,\n  input e,\n  output [3:0] o\n);\n  reg [3:0] m [0:3];\n  wire [3:0] _n0;\n  wire [3:0] _n1;\n  assign _n0 = m[a];\n  assign _n1 = e ? _n0 : 4'h0;\n  assign o = _n1;\nendmodule\n",
        b"",
    ),
    (
        EMIT,
        b"circuit T :\n  module T :\n    input c : Clock\n    input d : Clock\n    mem m :\n      data-type => UInt<4>\n      depth => 2\n      read-latency => 0\n      write-latency => 1\n      reader => r s\n    m is invalid\n    m.r.clk <= c\n    m.s.clk <= d\n",
        b"",
        Failing::Nothing,
        1,
        b"",
        b"E26 5:9 memory clocks m c d\n",
    ),
    (
        EMIT,
        b"circuit T :\n  module T :\n    input clock : Clock\n    input a : AsyncReset\n    output o : UInt<2>\n    reg r : UInt<2>, clock with : (reset => (a, UInt<2>(1)))\n    o <= r\n",
        b"",
        Failing::Nothing,
        0,
        b"module T(\n  (* clock *) input clock,\n  input a,\n  output [1:0] o\n);\n  reg [1:0] r;\n  assign o = r;\n  always @(posedge a) if (a) r <= 2'h1;\nendmodule\n",
        b"",
    ),
    (
        EMIT,
        b"circuit T :\n  module T :\n    input s : UInt<1>\n    input a : Clock\n    input b : Clock\n    output c : Clock\n    c <= a\n    when s :\n      c <= b\n",
        b"",
        Failing::Nothing,
        1,
        b"",
        b"E25 6:12 clock c 7:5 9:7\n",
    ),
    (
        EMIT,
        b"circuit T :\n  module T :\n    input a : UInt<1>\n    output o : UInt<1>\n    wire w : UInt<1>\n    o <= w\n    w <= a\n    when o :\n      w <= UInt<1>(0)\n",
        b"",
        Failing::Nothing,
        1,
        b"",
        b"E28 4:12 loop o <- w <- o\n",
    ),
    (
        EMIT,
        b"circuit T :\n  module T :\n    wire v : UInt<1>[4194305]\n    v is invalid\n",
        b"",
        Failing::Nothing,
        1,
        b"",
        b"E23 1:9 cost 8388610\n",
    ),
    (
        EMIT,
        b"circuit T :\n  module T :\n    input a UInt<4>\n    input b : UInt<4>\n    output o : UInt<4>\n    o <= xor(a, b)\n",
        b"",
        Failing::Nothing,
        1,
        b"",
        b"E04 3:13 syntax\n",
    ),
    (
        EMIT,
        b"circuit T :\n  module T :\n    stop(clock, UInt<1>(1), 1)\n",
        b"",
        Failing::Nothing,
        1,
        b"",
        b"E05 3:5 unsupported stop\n",
    ),
    (
        EMIT,
        b"circuit T :\n  module T :\n\tinput a : UInt<4>\n    input b : UInt<4>\n    output o : UInt<4>\n    o <= xor(a, b)\n",
        b"",
        Failing::Nothing,
        1,
        b"",
        b"E02 3:1 tab\n",
    ),
    (
        EMIT,
        b"circuit T :\n  module T :\n    output o : UInt<1>\n",
        b"",
        Failing::Nothing,
        1,
        b"",
        b"E24 3:12 undriven o\n",
    ),
    (
        EMIT,
        b"circuit T :\n  module T :\n    output o : UInt<2>\n    o <= UInt<2>(4)\n",
        b"",
        Failing::Nothing,
        1,
        b"",
        b"E21 4:10 legality literal 2 4\n",
    ),
    (
        EMIT,
        b"circuit T :\n  module T :\n    input clock : Clock\n    output o : UInt<8>\n    reg r : UInt, clock\n    o <= r\n    r <= add(r, UInt<1>(1))\n",
        b"",
        Failing::Nothing,
        1,
        b"",
        b"E19 5:9 width over 128 r\n",
    ),
    (
        EMIT,
        b"circuit T :\n  module T :\n    input u : UInt<1>\n    input a : AsyncReset\n    wire w : Reset\n    w <= u\n    w <= a\n",
        b"",
        Failing::Nothing,
        1,
        b"",
        b"E18 5:10 resets u - w - a\n",
    ),
    (
        EMIT,
        b"circuit T :\n  module T :\n    input a : UInt<2>\n    output o : UInt<1>\n    o <= UInt<1>(0)\n    when a :\n      o <= UInt<1>(1)\n",
        b"",
        Failing::Nothing,
        1,
        b"",
        b"E22 6:10 condition width 2\n",
    ),
    (
        EMIT,
        b"FIRRTL version 3.0.0\ncircuit T : %[[{\"class\":\"x]\"}]]\n  ; a comment\n  module T :\n    input clock : Clock\n    input reset : UInt<1>\n    output io : { flip d : UInt<8>, q : UInt<8>}\n\n    reg q : UInt, clock with :\n      reset => (UInt<1>(\"h0\"), q) @[T.scala 9:14]\n    q <= io.d @[T.scala 10:5]\n    io.q <= q @[T.scala 11:8]\n",
        b"",
        Failing::Nothing,
        1,
        b"",
        b"E07 1:16 version 3\n",
    ),
    (
        EMIT,
        b"circuit T :\n  module T :\n    input a : UInt<128>\n    input b : UInt<128>\n    output o : UInt<128>\n    o <= tail(add(a, b), 1)\n",
        b"",
        Failing::Nothing,
        1,
        b"",
        b"E19 6:15 width over 128 add\n",
    ),
    (&[], XOR, b"", Failing::Nothing, 2, b"", USAGE),
];

const SIMULATIONS: &[Run] = &[
    (
        SIM_STATE,
        MEMORY,
        b"init m_r_data c\ninit m 2 7\n0 1 1 5 9 1\n0 3 0 7 2 1\n0 1 2 4 6 0\n- 0 0 0 0 0\n",
        Failing::Nothing,
        0,
        b"c | 9 0 9 7\n9 | 0 2 9 7\n0 | 9 2 9 7\n9 | 9 2 9 7\n",
        b"",
    ),
    (
        SIM_STATE,
        MEMORY,
        b"init m 3 7\n",
        Failing::Nothing,
        6,
        b"",
        b"X04 1 name 3\n",
    ),
    (
        SIM_STATE,
        b"circuit T :\n  module T :\n    input clock : Clock\n    input reset : UInt<1>\n    input io : {a : UInt<4>, en : UInt<1>}\n    output o : UInt\n    reg r : UInt, clock with : (reset => (reset, UInt<4>(9)))\n    when io.en :\n      r <= xor(r, io.a)\n    o <= r\n",
        b"- 1 5 1\n0 1 5 1\n0 0 3 1\n0 0 6 0\n",
        Failing::Nothing,
        0,
        b"0 | 0\n0 | 9\n9 | a\na | a\n",
        b"",
    ),
    (
        SIM_STATE,
        ACCUMULATOR,
        b"init r c\n0 5\n0 3\n- f\n",
        Failing::Nothing,
        0,
        b"c | 9\n9 | a\na | a\n",
        b"",
    ),
    (
        SIM_STATE,
        ACCUMULATOR,
        b"init r 1c\n0 5\n0 3\n- f\n",
        Failing::Nothing,
        6,
        b"",
        b"X03 1 word 3 width 4\n",
    ),
    (
        SIM_STATE,
        ACCUMULATOR,
        b"init q 0\n0 5\n0 3\n- f\n",
        Failing::Nothing,
        6,
        b"",
        b"X04 1 name q\n",
    ),
    (
        SIM_STATE,
        ACCUMULATOR,
        b"init r c\n1 5\n0 3\n- f\n",
        Failing::Nothing,
        6,
        b"",
        b"X04 2 name 1\n",
    ),
    (
        SIM_STATE,
        b"circuit T :\n  module Later :\n    input clock : Clock\n    input d : UInt<4>\n    output q : UInt<4>\n    reg r : UInt<4>, clock\n    r <= d\n    q <= r\n  module T :\n    input clock : Clock\n    input a : UInt<4>\n    output o : UInt<4>\n    inst x of Later\n    inst y of Later\n    x.clock <= clock\n    y.clock <= clock\n    x.d <= a\n    y.d <= x.q\n    o <= y.q\n",
        b"0 1\n0 2\n0 3\n- 0\n",
        Failing::Nothing,
        0,
        b"0 | 1 0\n0 | 2 1\n1 | 3 2\n2 | 3 2\n",
        b"",
    ),
    (SIM, XOR, b"", Failing::Nothing, 0, b"", b""),
    (
        SIM,
        WIRE,
        b"- 7f\n- 100\n",
        Failing::Nothing,
        6,
        b"7f\n",
        b"X03 2 word 2 width 8\n",
    ),
    (
        SIM,
        b"circuit T :\n  module T :\n    input a : UInt<8>\n    input b : UInt<8>\n    output o : UInt<9>\n    o <= add(a, b)\n",
        b"- ff 01\n",
        Failing::Nothing,
        0,
        b"100\n",
        b"",
    ),
    (
        SIM,
        b"circuit T :\n  module T :\n    input a : SInt<2>\n    output o : SInt<4>\n    o <= a\n",
        b"- 3\n- 2\n",
        Failing::Nothing,
        0,
        b"f\ne\n",
        b"",
    ),
    (
        SIM,
        b"circuit T :\n  module T :\n    input a : UInt<4>\n    input b : UInt<4>\n    input s : SInt<4>\n    input t : SInt<4>\n    output q : UInt<4>\n    output m : UInt<4>\n    output d : SInt<5>\n    output e : SInt<4>\n    q <= div(a, b)\n    m <= rem(a, b)\n    d <= div(s, t)\n    e <= rem(s, t)\n",
        b"- 7 0 8 f\n- 7 2 9 2\n",
        Failing::Nothing,
        0,
        b"0 0 08 0\n3 1 1d f\n",
        b"",
    ),
    (
        SIM,
        b"circuit T :\n  module T :\n    output o : SInt<4>\n    o <= SInt(\"h-8\")\n",
        b"-\n",
        Failing::Nothing,
        0,
        b"8\n",
        b"",
    ),
    (
        SIM,
        b"circuit T :\n  module T :\n    input a : UInt<4>\n    input s : UInt<2>\n    output o : UInt<7>\n    o <= dshl(a, s)\n",
        b"- 9 3\n",
        Failing::Nothing,
        0,
        b"48\n",
        b"",
    ),
];

/// A call of the outside that fails.
const FAILING_CALLS: &[Run] = &[
    (
        EMIT,
        XOR,
        b"",
        Failing::Read(0, CallFault::Failed(3)),
        3,
        b"",
        b"read f.fir\n",
    ),
    (
        EMIT,
        XOR,
        b"",
        Failing::Read(0, CallFault::Memory),
        5,
        b"",
        b"memory\n",
    ),
    (
        EMIT,
        XOR,
        b"",
        Failing::Out(0, CallFault::Failed(6)),
        4,
        b"module",
        b"write\n",
    ),
    (
        EMIT,
        XOR,
        b"",
        Failing::Out(0, CallFault::Memory),
        5,
        b"",
        b"memory\n",
    ),
    (
        EMIT,
        b"",
        b"",
        Failing::Err(0, CallFault::Failed(5)),
        4,
        b"",
        b"E04 1",
    ),
    (
        &[],
        XOR,
        b"",
        Failing::Err(0, CallFault::Failed(2)),
        4,
        b"",
        b"us",
    ),
    (
        SIM,
        WIRE,
        TICKS,
        Failing::Read(0, CallFault::Failed(0)),
        3,
        b"",
        b"read f.fir\n",
    ),
    (
        SIM,
        WIRE,
        TICKS,
        Failing::Read(1, CallFault::Failed(7)),
        3,
        b"",
        b"read t\n",
    ),
    (
        SIM,
        WIRE,
        TICKS,
        Failing::Read(1, CallFault::Memory),
        5,
        b"",
        b"memory\n",
    ),
    (
        SIM,
        WIRE,
        TICKS,
        Failing::Out(0, CallFault::Failed(4)),
        4,
        b"01\n0",
        b"write\n",
    ),
    (
        SIM,
        WIRE,
        TICKS,
        Failing::Out(0, CallFault::Memory),
        5,
        b"",
        b"memory\n",
    ),
    (
        SIM,
        WIRE,
        TICKS,
        Failing::Out(1, CallFault::Failed(0)),
        0,
        b"01\n02\n",
        b"",
    ),
];

#[test]
fn emits_end_as_they_are_to(rt: HostRuntime) -> Result<(), Fail> {
    end_as_they_are_to(&rt, rt.alloc(), EMITS)
}

#[test]
fn simulations_end_as_they_are_to(rt: HostRuntime) -> Result<(), Fail> {
    end_as_they_are_to(&rt, rt.alloc(), SIMULATIONS)
}

#[test]
fn calls_that_fail_are_told(rt: HostRuntime) -> Result<(), Fail> {
    end_as_they_are_to(&rt, rt.alloc(), FAILING_CALLS)
}

/// Lines are put some tens of kilobytes at a time, so that the second put is in the midst of them.
#[test]
fn a_put_that_fails_in_the_midst_of_a_simulation_is_told(rt: HostRuntime) -> Result<(), Fail> {
    let mut trace = Vec::new(rt.alloc());
    for _ in 0..30000u32 {
        trace.extend_from_slice(b"- ab\n")?;
    }
    let failing = Failing::Out(1, CallFault::Failed(5));
    let shown = outcome_of(rt.alloc(), SIM, WIRE, trace.as_slice(), failing)?;
    assert_eq!(rt; shown.status, 4);
    assert!(rt; shown.out.len() < 90000);
    assert!(rt; shown.out.as_slice().ends_with(b"\nab\nab"));
    assert!(rt; shown.err.as_slice() == b"write\n".as_slice());
    Ok(())
}

#[test]
fn where_nothing_fails_few_statuses_are_left(rt: HostRuntime) -> Result<(), Fail> {
    let emit = owned(rt.alloc(), EMIT)?;
    let files = SureFiles::new(entries(rt.alloc(), XOR, b"")?);
    assert_eq!(rt; sure_status(rt.alloc(), &emit, files), 0);
    let sim = owned(rt.alloc(), SIM)?;
    let files = SureFiles::new(entries(rt.alloc(), XOR, b"- 5 3\n")?);
    assert_eq!(rt; sure_status(rt.alloc(), &sim, files), 0);
    Ok(())
}
