//! What a run of the program over files and sinks in memory shows.

use fir_base::MemoryOut;
use fir_driver::run;
use fir_io::{CallFault, FailingCall, FileEntry, MemFiles, MemSink};
use std::alloc::Global;
use std::process::Abort;
use std::test::Fail;

/// Which call is to fail, counted from 0, and how.
#[derive(Clone, Copy)]
pub enum Failing {
    Nothing,
    Read(u64, CallFault),
    Out(u64, CallFault),
    Err(u64, CallFault),
}

/// The words, the text in the file f.fir, the trace in the file t, and what is to fail; then the status, and what
/// stands on both outputs.
pub type Run = (
    &'static [&'static str],
    &'static [u8],
    &'static [u8],
    Failing,
    u8,
    &'static [u8],
    &'static [u8],
);

/// What a run shows.
#[derive(Drop)]
pub struct Outcome {
    pub status: u8,
    pub out: Vec<u8>,
    pub err: Vec<u8>,
}

pub fn outcome_of(
    alloc: Global,
    words: &[&str],
    text: &[u8],
    trace: &[u8],
    failing: Failing,
) -> Result<Outcome, MemoryOut> {
    let mut reads = Vec::new(alloc);
    let mut puts = Vec::new(alloc);
    let mut complaints = Vec::new(alloc);
    match failing {
        Failing::Nothing => {}
        Failing::Read(call, fault) => reads.push(FailingCall { call, fault })?,
        Failing::Out(call, fault) => puts.push(FailingCall { call, fault })?,
        Failing::Err(call, fault) => complaints.push(FailingCall { call, fault })?,
    }
    let mut files = MemFiles::new(entries(alloc, text, trace)?, reads);
    let mut out = MemSink::new(alloc, puts);
    let mut err = MemSink::new(alloc, complaints);
    let words = owned(alloc, words)?;
    let status = run(alloc, &words, &mut files, &mut out, &mut err);
    Ok(Outcome {
        status,
        out: out.into_bytes(),
        err: err.into_bytes(),
    })
}

pub fn entries(alloc: Global, text: &[u8], trace: &[u8]) -> Result<Vec<FileEntry>, MemoryOut> {
    let mut entries = Vec::new(alloc);
    entries.push(FileEntry::new(alloc, "f.fir", text)?)?;
    entries.push(FileEntry::new(alloc, "t", trace)?)?;
    Ok(entries)
}

pub fn owned(alloc: Global, words: &[&str]) -> Result<Vec<String>, MemoryOut> {
    let mut owned = Vec::new(alloc);
    for word in words {
        owned.push(String::from_str(alloc, word)?)?;
    }
    Ok(owned)
}

pub fn end_as_they_are_to(rt: &impl Abort, alloc: Global, runs: &[Run]) -> Result<(), Fail> {
    for (words, text, trace, failing, status, out, err) in runs {
        let shown = outcome_of(alloc, words, text, trace, *failing)?;
        assert_eq!(rt; shown.status, *status);
        assert_eq!(rt; shown.out.as_slice(), *out);
        assert_eq!(rt; shown.err.as_slice(), *err);
    }
    Ok(())
}
