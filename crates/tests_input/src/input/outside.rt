use con_outside::memory::{fails, raise};
use con_outside::real::MIRROR_FILE;
use con_outside::*;
use con_units::Bytes;
use std::alloc::Global;
use std::io::{Read, Write};
use std::test::Fail;
use std::{fs, io};

// Gives three bytes, then fails.
#[derive(Drop)]
struct Three {
    calls: u8,
}

impl Read for Three {
    fn read(&mut self, buf: &mut [u8]) -> io::Result<usize> {
        self.calls = self.calls.saturating_add(1);
        if self.calls > 1 || buf.len() < 3 {
            return Err(io::ErrorKind::Other.into());
        }
        buf[0] = 0x61;
        buf[1] = 0x62;
        buf[2] = 0x63;
        Ok(3)
    }
}

// Takes one byte, then none.
#[derive(Drop)]
struct One {
    taken: u8,
}

impl Write for One {
    fn write(&mut self, buf: &[u8]) -> io::Result<usize> {
        if self.taken != 0 || buf.is_empty() {
            return Ok(0);
        }
        self.taken = buf[0];
        Ok(1)
    }

    fn flush(&mut self) -> io::Result<()> {
        Ok(())
    }
}

#[test]
fn a_reader_of_std_gives_each_byte_and_counts_its_failures(rt: HostRuntime) {
    let mut source = StdSource {
        reader: Three { calls: 0 },
        faults: 0,
    };
    let mut buf = [0u8; 4];
    let answers = [source.read(&mut buf), source.read(&mut buf)];
    assert!(rt; answers == [Ok(3), Err(Failed)] && buf == *b"abc\0" && source.faults == 1);
}

#[test]
fn a_writer_of_std_tells_what_it_took_and_fails_where_it_takes_nothing(rt: HostRuntime) {
    let mut sink = StdSink {
        writer: One { taken: 0 },
        faults: 0,
    };
    let answers = [sink.write(b"ab"), sink.write(b"b")];
    assert!(rt;
        answers == [Ok(1), Err(Fault::Failed)] && sink.writer.taken == 0x61 && sink.faults == 1
    );
}

// How often the source of five bytes failed that fails at this read, with what was read of it.
fn read_failing_at(alloc: Global, call: u64, out: &mut Vec<u8>) -> Result<u64, Fail> {
    let mut source = MemorySource {
        bytes: Bytes(Vec::from_array(alloc, *b"abcde")?),
        at: 0,
        fail: Vec::from_array(alloc, [call])?,
        calls: 0,
        faults: 0,
    };
    let mut buf = [0u8; 2];
    for _ in 0..8 {
        match source.read(&mut buf) {
            Ok(0) | Err(_) => break,
            Ok(n) => out.extend_from_slice(&buf[..n])?,
        }
    }
    Ok(source.faults)
}

// How often the sink failed that takes two bytes a call and fails at this call, with what five bytes became of it.
fn write_failing_at(alloc: Global, call: u64, out: &mut Vec<u8>) -> Result<u64, Fail> {
    let mut sink = MemorySink {
        written: Bytes(Vec::new(alloc)),
        most: 2,
        fail: Vec::from_array(alloc, [call])?,
        calls: 0,
        faults: 0,
    };
    let answer = write_whole(&mut sink, b"abcde");
    out.extend_from_slice(sink.written.as_slice())?;
    Ok(if answer.is_err() { sink.faults } else { 0 })
}

// What is read where each read fails in turn, and then what is written, each with whether it failed, up to the first one that did not.
fn put_failing(alloc: Global, seen: &mut Vec<u8>) -> Result<(), Fail> {
    for call in 0..8 {
        let faults = read_failing_at(alloc, call, seen)?;
        seen.push(if faults == 0 { 0x30 } else { 0x31 })?;
        if faults == 0 {
            break;
        }
    }
    for call in 0..8 {
        let faults = write_failing_at(alloc, call, seen)?;
        seen.push(if faults == 0 { 0x30 } else { 0x31 })?;
        if faults == 0 {
            break;
        }
    }
    Ok(())
}

fn is_failing_in_turn(alloc: Global) -> Result<bool, Fail> {
    let mut seen = Vec::new(alloc);
    put_failing(alloc, &mut seen)?;
    Ok(seen.as_slice() == b"1ab1abcd1abcde1abcde01ab1abcd1abcde0".as_slice())
}

#[test]
fn each_read_and_each_write_fails_in_turn(rt: HostRuntime) -> Result<(), Fail> {
    let failing = is_failing_in_turn(rt.alloc())?;
    assert!(rt; failing);
    Ok(())
}

#[test]
fn counts_stay_at_the_greatest_number(rt: HostRuntime) {
    let mut calls = u64::MAX;
    let mut faults = u64::MAX;
    raise(&mut faults);
    assert!(rt; fails(&[u64::MAX], &mut calls) && calls == u64::MAX && faults == u64::MAX);
}

// What a file's name is answered.
fn answer<F: Files>(alloc: Global, files: &mut F, name: &str) -> Result<Found, Fault> {
    let mut out = Vec::new(alloc);
    files.read_all(name, &mut out)
}

// Whether a file is found whole, with this text.
fn has<F: Files>(alloc: Global, files: &mut F, name: &str, text: &[u8]) -> bool {
    let mut out = Vec::new(alloc);
    files.read_all(name, &mut out) == Ok(Found::Whole) && out.as_slice() == text
}

// The names of two files.
fn names(alloc: Global) -> Result<Vec<String>, Fail> {
    let mut names = Vec::new(alloc);
    names.push(String::from_str(alloc, "a")?)?;
    names.push(String::from_str(alloc, "ab")?)?;
    Ok(names)
}

// The text of the first one.
fn texts(alloc: Global) -> Result<Vec<Vec<u8>>, Fail> {
    let mut texts = Vec::new(alloc);
    texts.push(Vec::from_array(alloc, *b"one")?)?;
    Ok(texts)
}

// Files in memory of which the second read fails.
fn memory_files(alloc: Global) -> Result<MemoryFiles, Fail> {
    let names = names(alloc)?;
    let texts = texts(alloc)?;
    let fail = Vec::from_array(alloc, [1])?;
    Ok(MemoryFiles {
        names,
        texts,
        fail,
        calls: 0,
        faults: 0,
    })
}

fn are_found(alloc: Global, files: &mut MemoryFiles) -> bool {
    has(alloc, files, "a", b"one")
        && answer(alloc, files, "a") == Err(Fault::Failed)
        && answer(alloc, files, "ab") == Ok(Found::Missing)
}

fn are_found_in_memory(alloc: Global) -> Result<bool, Fail> {
    let mut files = memory_files(alloc)?;
    Ok(are_found(alloc, &mut files))
}

fn is_surely_found(alloc: Global) -> Result<bool, Fail> {
    let names = names(alloc)?;
    let texts = texts(alloc)?;
    let mut files = SureFiles { names, texts };
    Ok(has(alloc, &mut files, "a", b"one"))
}

#[test]
fn files_in_memory_are_found_by_name(rt: HostRuntime) -> Result<(), Fail> {
    let found = are_found_in_memory(rt.alloc())?;
    let surely = is_surely_found(rt.alloc())?;
    assert!(rt; found && surely);
    Ok(())
}

// Whether files of the system are read whole, and only the one that cannot be read counts as a failure.
fn are_read(alloc: Global, files: &mut DiskFiles<HostRuntime>) -> bool {
    has(alloc, files, "/proc/sys/kernel/ostype", b"Linux\n")
        && answer(alloc, files, "/no/such/file") == Ok(Found::Missing)
        && answer(alloc, files, "/dev/zero") == Ok(Found::TooLong)
        && answer(alloc, files, "/") == Err(Fault::Failed)
        && files.faults == 1
}

#[test]
fn files_of_the_system_are_read_whole(rt: HostRuntime) -> Result<(), Fail> {
    let mut files = DiskFiles {
        rt: rt.clone()?,
        faults: 0,
    };
    let read = are_read(rt.alloc(), &mut files);
    assert!(rt; read);
    let gate = NoGate;
    gate.before(1, 0);
    gate.after(1, 0);
    Ok(())
}

// Whether a write fails while the file's name is a folder's.
fn is_refused(rt: &HostRuntime, sink: &mut DiskSink<HostRuntime>) -> Result<bool, Fail> {
    fs::create_dir(rt, MIRROR_FILE)?;
    let refused = sink.write(b"x") == Err(Fault::Failed) && sink.faults == 1;
    fs::remove_dir(rt, MIRROR_FILE)?;
    Ok(refused)
}

// Whether the file has what was written, and nothing of an older one.
fn is_written(rt: &HostRuntime, sink: &mut DiskSink<HostRuntime>) -> Result<bool, Fail> {
    fs::write(rt, MIRROR_FILE, "older")?;
    let answers = [write_whole(sink, b"ab"), write_whole(sink, b"c")];
    let text = fs::read(rt, MIRROR_FILE)?;
    fs::remove_file(rt, MIRROR_FILE)?;
    Ok(answers == [Ok(()), Ok(())] && text.as_slice() == b"abc".as_slice())
}

#[test]
fn a_file_of_the_system_is_made_at_the_first_write_that_it_takes(
    rt: HostRuntime,
) -> Result<(), Fail> {
    let mut sink = DiskSink {
        rt: rt.clone()?,
        file: None,
        faults: 0,
    };
    let refused = is_refused(&rt, &mut sink)?;
    let written = is_written(&rt, &mut sink)?;
    assert!(rt; refused && written);
    Ok(())
}
