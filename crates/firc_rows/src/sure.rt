//! What is left of the statuses where nothing fails.

ghost use Rattle.fir_words.specs.Commands.{asked_by};
ghost use Rattle.firc_rows.specs.working.Left.{IsLeft};

use fir_driver::run;
use fir_io::{SureFiles, SureSink};
use std::alloc::Global;

/// The status over files and sinks that never fail.
pub fn sure_status(alloc: Global, words: &Vec<String>, files: SureFiles) -> u8
    ensures { IsLeft (asked_by words.now.items) result }
{
    let mut files = files;
    let mut out = SureSink::new(alloc);
    let mut err = SureSink::new(alloc);
    run(alloc, words, &mut files, &mut out, &mut err)
}
