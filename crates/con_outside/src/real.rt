//! The outside of std: what its readers, writers and files give and take is untold.

ghost use Rattle.std.specs.Prelude.{ℕ, ◌≡◌, ◌<◌, ◌≤◌, List, length, take, Option, Some, None, IfOk, OnErr, IfSome};
ghost use Rattle.con_outside.specs.Outside.{Rose, then_left, then_written};

use crate::files::{Files, Found};
use crate::memory::raise;
use crate::reading::read_whole;
use crate::traits::{Failed, Fault, Sink, Source};
use std::io::{Read, Write};
use std::{fs, io, rt};

/// A reader of std as a source.
#[derive(Drop)]
pub struct StdSource<R> {
    pub reader: R,
    /// How often it has failed.
    pub faults: u64,
}

impl<R: Read + Drop> Source for StdSource<R> {
    ghost left = { λ _. None };

    ghost faults = { λ s. s.faults };

    fn read(&mut self, buf: &mut [u8]) -> Result<usize, Failed> {
        match self.reader.read(buf) {
            Ok(n) => Ok(n),
            Err(_) => {
                raise(&mut self.faults);
                Err(Failed)
            }
        }
    }
}

/// A writer of std as a sink. A writer that takes none of some bytes has failed.
#[derive(Drop)]
pub struct StdSink<W> {
    pub writer: W,
    /// How often it has failed.
    pub faults: u64,
}

impl<W: Write + Drop> Sink for StdSink<W> {
    ghost written = { λ _. None };

    ghost faults = { λ s. s.faults };

    fn write(&mut self, bytes: &[u8]) -> Result<usize, Fault> {
        match self.writer.write(bytes) {
            Ok(n) if n > 0 || bytes.is_empty() => Ok(n),
            _ => {
                raise(&mut self.faults);
                Err(Fault::Failed)
            }
        }
    }
}

/// Files of the system, by their paths. A path that is not there is `Missing`; any other failure counts.
#[derive(Drop)]
pub struct DiskFiles<R> {
    pub rt: R,
    /// How often it has failed.
    pub faults: u64,
}

impl<R: rt::Files + Drop> Files for DiskFiles<R> {
    ghost files = { λ _. None };

    ghost faults = { λ s. s.faults };

    fn read_all(&mut self, name: &str, out: &mut Vec<u8>) -> Result<Found, Fault> {
        match fs::open(&self.rt, name) {
            Ok(reader) => {
                let mut source = StdSource {
                    reader,
                    faults: self.faults,
                };
                let answer = read_whole(&mut source, out);
                self.faults = source.faults;
                answer
            }
            Err(error) if error.kind() == io::ErrorKind::NotFound => Ok(Found::Missing),
            Err(_) => {
                raise(&mut self.faults);
                Err(Fault::Failed)
            }
        }
    }
}

/// The file that a [`DiskSink`] writes, in the folder in which the program runs.
pub const MIRROR_FILE: &str = "conpty.mirror";

/// The file `conpty.mirror` of the system as a sink. It is created, or emptied where it is there, at the first write; without a
/// write none is created, and an older one stays. A file that cannot be created is a failed write.
#[derive(Drop)]
pub struct DiskSink<R: rt::Files> {
    pub rt: R,
    /// The file once it is created; `None` before the first write.
    pub file: Option<R::File>,
    /// How often it has failed.
    pub faults: u64,
}

impl<R: rt::Files + Drop> Sink for DiskSink<R> {
    ghost written = { λ _. None };

    ghost faults = { λ s. s.faults };

    fn write(&mut self, bytes: &[u8]) -> Result<usize, Fault> {
        let mut file = match self.file.take() {
            Some(file) => file,
            None => match fs::create(&self.rt, MIRROR_FILE) {
                Ok(file) => file,
                Err(_) => {
                    raise(&mut self.faults);
                    return Err(Fault::Failed);
                }
            },
        };
        let answer = file.write(bytes);
        self.file = Some(file);
        match answer {
            Ok(n) if n > 0 || bytes.is_empty() => Ok(n),
            _ => {
                raise(&mut self.faults);
                Err(Fault::Failed)
            }
        }
    }
}
