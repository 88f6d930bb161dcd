//! Runs of the program over Verilog texts in memory.

use crate::outcome::{Failing, Run, end_as_they_are_to, entries, owned};
use crate::sure::sure_status;
use fir_io::{CallFault, SureFiles};
use std::test::Fail;

const VSIM: &[&str] = &["firc", "vsim", "f.fir", "t"];

const VSIM_STATE: &[&str] = &["firc", "vsim", "f.fir", "t", "--state"];

/// The order of three processes for the number 2 is 2, 0, 1.
const VSIM_ORDER: &[&str] = &["firc", "vsim", "f.fir", "t", "--order", "2"];

/// Three nets, of which each shows the one before it.
const CHAIN: &[u8] =
    b"module T(input [3:0] a, output [3:0] o);\n  wire [3:0] x;\n  wire [3:0] y;\n  assign x = ~a;\n  assign y = x;\n  assign o = y;\nendmodule\n";

/// A register that takes the input, and shows it a tick later.
const DELAY: &[u8] =
    b"module T((* clock *) input c, input [3:0] a, output [3:0] o);\n  reg [3:0] r;\n  assign o = r;\n  always @(posedge c) r <= a;\nendmodule\n";

/// A quotient that has no value where the input is zero.
const QUOTIENT: &[u8] =
    b"module T(input [3:0] a, output [3:0] o);\n  assign o = 4'h8 / a;\nendmodule\n";

/// A name that is not declared.
const UNDECLARED: &[u8] = b"module T(output o);\n  assign o = w;\nendmodule\n";

/// Runs of texts that are taken and refused, up to their end, a tick without a value or a bad line; and calls that fail.
const RUNS: &[Run] = &[
    (
        VSIM,
        CHAIN,
        b"- 5\n- 0\n",
        Failing::Nothing,
        0,
        b"a\nf\n",
        b"",
    ),
    (
        VSIM_ORDER,
        CHAIN,
        b"- 5\n- 5\n",
        Failing::Nothing,
        0,
        b"a ; 2\na ; 1\n",
        b"",
    ),
    (
        VSIM_STATE,
        DELAY,
        b"init r 3\n0 5\n- 7\n",
        Failing::Nothing,
        0,
        b"3 | 5\n5 | 5\n",
        b"",
    ),
    (
        VSIM,
        QUOTIENT,
        b"- 2\n- 0\n- 1\n",
        Failing::Nothing,
        7,
        b"4\n",
        b"V09 2:3 tick 2\n",
    ),
    (
        VSIM,
        QUOTIENT,
        b"- 2\n- 0\n- 11\n",
        Failing::Nothing,
        7,
        b"4\n",
        b"V09 2:3 tick 2\n",
    ),
    (
        VSIM,
        QUOTIENT,
        b"- 2\n- 11\n- 0\n",
        Failing::Nothing,
        6,
        b"4\n",
        b"X03 2 word 2 width 4\n",
    ),
    (
        VSIM,
        UNDECLARED,
        b"",
        Failing::Read(1, CallFault::Failed(0)),
        7,
        b"",
        b"V03 2:14 undeclared w\n",
    ),
    (
        VSIM,
        CHAIN,
        b"- 5\n",
        Failing::Read(0, CallFault::Failed(9)),
        3,
        b"",
        b"read f.fir\n",
    ),
    (
        VSIM,
        CHAIN,
        b"- 5\n",
        Failing::Read(1, CallFault::Failed(0)),
        3,
        b"",
        b"read t\n",
    ),
    (
        VSIM,
        CHAIN,
        b"- 5\n",
        Failing::Read(1, CallFault::Memory),
        5,
        b"",
        b"memory\n",
    ),
    (
        VSIM,
        CHAIN,
        b"- 5\n- 0\n",
        Failing::Out(0, CallFault::Failed(3)),
        4,
        b"a\nf",
        b"write\n",
    ),
    (
        VSIM,
        QUOTIENT,
        b"- 2\n- 0\n",
        Failing::Err(0, CallFault::Failed(3)),
        4,
        b"4\n",
        b"V09",
    ),
    (
        VSIM,
        UNDECLARED,
        b"",
        Failing::Err(0, CallFault::Memory),
        5,
        b"",
        b"",
    ),
];

#[test]
fn verilog_runs_end_as_they_are_to(rt: HostRuntime) -> Result<(), Fail> {
    end_as_they_are_to(&rt, rt.alloc(), RUNS)
}

#[test]
fn where_nothing_fails_a_verilog_text_is_run(rt: HostRuntime) -> Result<(), Fail> {
    let vsim = owned(rt.alloc(), VSIM)?;
    let files = SureFiles::new(entries(rt.alloc(), CHAIN, b"- 5\n")?);
    assert_eq!(rt; sure_status(rt.alloc(), &vsim, files), 0);
    Ok(())
}
