//! Files and sinks in memory, which fail where they are told to, and those of the system.

ghost use Rattle.std.specs.Prelude.{IsTrue};

use fir_io::{
    CallFault, FailingCall, FileEntry, FileFault, Files, MemFiles, MemSink, OsFiles, OsSink,
    PutFault, Sink, SureFiles, SureSink,
};
use std::alloc::Global;
use std::path::PathBuf;
use std::test::Fail;
use std::{env, fs, process};

fn ask<F: Files>(files: &mut F, alloc: Global, name: &str, limit: u64) -> Result<Vec<u8>, FileFault>
    requires { IsTrue ((F.seen files.old).may name.now) }
{
    files.read(alloc, name, limit)
}

fn tell<S: Sink>(sink: &mut S, piece: &[u8]) -> Result<(), PutFault> {
    sink.put(piece)
}

fn is_as_wanted(answer: Result<Vec<u8>, FileFault>, wanted: Result<&[u8], FileFault>) -> bool {
    match answer {
        Ok(content) => holds(content.as_slice(), wanted),
        Err(fault) => matches!(wanted, Err(wanted) if wanted == fault),
    }
}

fn holds(content: &[u8], wanted: Result<&[u8], FileFault>) -> bool {
    matches!(wanted, Ok(wanted) if wanted == content)
}

fn entries(alloc: Global) -> Result<Vec<FileEntry>, Fail> {
    let mut entries = Vec::new(alloc);
    for (name, content) in [("a", "abcd"), ("empty", ""), ("a", "other")] {
        entries.push(FileEntry::new(alloc, name, content.as_bytes())?)?;
    }
    Ok(entries)
}

#[test]
fn files_in_memory_answer_as_planned(rt: HostRuntime) -> Result<(), Fail> {
    let alloc = rt.alloc();
    let mut failing = Vec::new(alloc);
    for (call, fault) in [(3, CallFault::Failed(2)), (4, CallFault::Memory)] {
        failing.push(FailingCall { call, fault })?;
    }
    let mut files = MemFiles::new(entries(alloc)?, failing);
    let calls: [(&str, u64, Result<&[u8], FileFault>, u64, u64); 6] = [
        ("a", 4, Ok(b"abcd"), 4, 0),
        ("a", 3, Err(FileFault::TooLong), 4, 0),
        ("missing", 9, Err(FileFault::Failed), 0, 1),
        ("a", 9, Err(FileFault::Failed), 2, 2),
        ("a", 9, Err(FileFault::Memory), 0, 2),
        ("empty", 0, Ok(b""), 0, 2),
    ];
    for (name, limit, wanted, taken, faults) in calls {
        assert!(rt; is_as_wanted(ask(&mut files, alloc, name, limit), wanted));
        assert_eq!(rt; (files.taken(), files.faults()), (taken, faults));
    }
    Ok(())
}

#[test]
fn a_sink_in_memory_answers_as_planned(rt: HostRuntime) -> Result<(), Fail> {
    let alloc = rt.alloc();
    let mut failing = Vec::new(alloc);
    for (call, fault) in [
        (1, CallFault::Failed(2)),
        (2, CallFault::Failed(9)),
        (3, CallFault::Memory),
    ] {
        failing.push(FailingCall { call, fault })?;
    }
    let mut sink = MemSink::new(alloc, failing);
    for (piece, wanted, held, faults) in [
        ("ab", Ok(()), "ab", 0),
        ("", Ok(()), "ab", 0),
        ("cde", Err(PutFault::Failed), "abcd", 1),
        ("fgh", Err(PutFault::Failed), "abcdfgh", 2),
        ("i", Err(PutFault::Memory), "abcdfgh", 2),
        ("j", Ok(()), "abcdfghj", 2),
    ] {
        assert!(rt; tell(&mut sink, piece.as_bytes()) == wanted);
        assert!(rt; sink.held() == held.as_bytes());
        assert_eq!(rt; sink.faults(), faults);
    }
    assert_eq!(rt; sink.into_bytes().len(), 8);
    Ok(())
}

#[test]
fn sure_files_never_fail(rt: HostRuntime) -> Result<(), Fail> {
    let alloc = rt.alloc();
    let mut files = SureFiles::new(entries(alloc)?);
    assert!(rt; is_as_wanted(ask(&mut files, alloc, "a", 4), Ok(b"abcd")));
    assert!(rt; is_as_wanted(ask(&mut files, alloc, "a", 3), Err(FileFault::TooLong)));
    assert_eq!(rt; files.taken(), 4);
    assert!(rt; is_as_wanted(ask(&mut files, alloc, "missing", 0), Ok(b"")));
    assert_eq!(rt; files.taken(), 0);
    Ok(())
}

#[test]
fn a_sure_sink_never_fails(rt: HostRuntime) {
    let mut sink = SureSink::new(rt.alloc());
    assert!(rt; tell(&mut sink, b"ab").is_ok());
    assert!(rt; tell(&mut sink, b"c").is_ok());
    assert!(rt; sink.held() == b"abc".as_slice());
    assert_eq!(rt; sink.into_bytes().len(), 3);
}

#[test]
fn the_system_gives_back_what_it_took(rt: HostRuntime) -> Result<(), Fail> {
    let alloc = rt.alloc();
    let path = scratch_path(&rt, alloc)?;
    let text = path.as_str();
    assert!(rt; takes_two_pieces(&rt, text)?);
    let is_whole = reads(&rt, alloc, text, 5, Ok(b"abcde"));
    let is_longer = reads(&rt, alloc, text, 4, Err(FileFault::TooLong));
    fs::remove_file(&rt, text)?;
    let is_missing = reads(&rt, alloc, text, 5, Err(FileFault::Failed));
    assert!(rt; is_whole);
    assert!(rt; is_longer);
    assert!(rt; is_missing);
    Ok(())
}

/// A path among the temporary files, by the number of this process.
fn scratch_path(rt: &HostRuntime, alloc: Global) -> Result<PathBuf, Fail> {
    let number = process::id(rt.process());
    let name = format!(in alloc; "fir_io_test_{number}")?;
    let folder = env::temp_dir(rt)?;
    Ok(folder.join(alloc, name.as_str())?)
}

/// Puts `abcde` to a new file in two pieces; whether both are taken.
fn takes_two_pieces(rt: &HostRuntime, path: &str) -> Result<bool, Fail> {
    let mut sink = OsSink::new(fs::create(rt, path)?);
    Ok(tell(&mut sink, b"ab").is_ok() && tell(&mut sink, b"cde").is_ok())
}

/// Whether the system answers so where that many bytes are taken at most.
fn reads(
    rt: &HostRuntime,
    alloc: Global,
    path: &str,
    limit: u64,
    wanted: Result<&[u8], FileFault>,
) -> bool {
    let mut files = OsFiles::new(rt);
    is_as_wanted(ask(&mut files, alloc, path, limit), wanted)
}

#[test]
fn a_write_that_takes_nothing_is_a_fault(rt: HostRuntime) {
    let mut room = [0u8; 3];
    let mut sink = OsSink::new(room.as_mut_slice());
    assert!(rt; tell(&mut sink, b"abc").is_ok());
    assert!(rt; tell(&mut sink, b"").is_ok());
    assert!(rt; tell(&mut sink, b"d") == Err(PutFault::Failed));
}
