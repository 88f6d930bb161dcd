//! The line of a fault.

use crate::evidence::put_evidence;
use crate::fault::VerFault;
use crate::place::put_place;
use fir_base::MemoryOut;
use std::alloc::Global;

impl VerFault {
    ghost use Rattle.std.specs.Prelude.{◌≡◌, ◌++◌, IfOk, OnErr, OnOk};
    ghost use Rattle.ver_fault.specs.Faults.{vcode_word, vfault_line};
    ghost use Rattle.ver_fault.specs.View.{vcode_of, vfault_of};

    /// Appends the line of the fault: its code, its place as line and column from 1, its evidence, parted by single
    /// spaces, and a newline. Where memory is wanting, `out` is as before.
    pub fn put_line(&self, alloc: Global, out: &mut Vec<u8>) -> Result<(), MemoryOut>
        ensures line { OnOk result (out.new.items ≡ out.old.items ++ vfault_line (vfault_of self.now)) }
        ensures unchanged { OnErr result (out.new.items ≡ out.old.items) }
    {
        let line = self.line(alloc)?;
        out.extend_from_slice(line.as_slice())?;
        Ok(())
    }

    fn line(&self, alloc: Global) -> Result<Vec<u8>, MemoryOut>
        ensures { IfOk result (λ line. line.items ≡ vfault_line (vfault_of self.now)) }
    {
        let mut line = Vec::new(alloc);
        line.extend_from_slice(self.code())?;
        line.extend_from_slice(b" ")?;
        put_place(&mut line, self.place())?;
        line.extend_from_slice(b" ")?;
        put_evidence(&mut line, self)?;
        line.extend_from_slice(b"\n")?;
        Ok(line)
    }

    fn code(&self) -> &'static [u8]
        ensures { result.now ≡ vcode_word (vcode_of self.now) }
    {
        match self {
            VerFault::Byte { place: _, byte: _ } => b"V01",
            VerFault::Syntax { place: _ } => b"V02",
            VerFault::Undeclared { place: _, name: _ } => b"V03",
            VerFault::Width {
                place: _,
                needed: _,
                found: _,
            }
            | VerFault::Kind { place: _ } => b"V04",
            VerFault::Twice {
                place: _,
                name: _,
                first: _,
            } => b"V05",
            VerFault::Loop { place: _, walk: _ } => b"V06",
            VerFault::Depth { place: _ } => b"V07",
            VerFault::Undriven { place: _, name: _ } => b"V08",
        }
    }
}
