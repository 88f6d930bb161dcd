//! The program: makes the real files and outputs, and calls `run` of fir_driver.
#![tactic(auto)]

use fir_driver::run;
use fir_io::{OsFiles, OsSink};
use std::alloc::{AllocError, Global};
use std::env::{self, Env};
use std::io::ErrorKind;
use std::process::ExitCode;

/// The exit status where there is no memory for the words.
const NO_MEMORY: u8 = 5;

fn main(rt: HostRuntime) -> ExitCode {
    let Ok(words) = command_words(&rt, rt.alloc()) else {
        return ExitCode::from(NO_MEMORY);
    };
    let mut files = OsFiles::new(&rt);
    let mut out = OsSink::new(rt.stdout());
    let mut err = OsSink::new(rt.stderr());
    ExitCode::from(run(rt.alloc(), &words, &mut files, &mut out, &mut err))
}

/// The words of the command line; where they are not text, the program's name alone, which is not taken.
fn command_words<R: Env + AllocGlobal>(rt: &R, alloc: Global) -> Result<Vec<String>, AllocError> {
    match env::args(rt) {
        Ok(words) => words.collect(alloc),
        Err(error) if error.kind() == ErrorKind::OutOfMemory => Err(AllocError),
        Err(_) => program_name(alloc),
    }
}

fn program_name(alloc: Global) -> Result<Vec<String>, AllocError> {
    let mut words = Vec::new(alloc);
    words.push(String::from_str(alloc, "firc")?)?;
    Ok(words)
}
