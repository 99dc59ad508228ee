//! A file that the page is written to.
ghost use Rattle.std.specs.Prelude.{◌≤◌, OnErr, OnOk};
ghost use Rattle.std.specs.Io.KnownBytes.{Appends};
ghost use Rattle.pg_outside.specs.Outside.{AppendsFront, Rose};

use pg_outside::{Sink, StreamSink, WriteFailed};
use std::fs;
use std::rt::Files;

/// A file under the working folder that is made when it is written to, so that it stays as it is where nothing is
/// written. It tells nothing of what it holds.
#[derive(Drop)]
pub struct FileTarget<'a, R> {
    rt: &'a R,
    name: &'a str,
    faults: u64,
    writes: u64,
}

impl<'a, R: Files> FileTarget<'a, R> {
    /// The file of this name.
    pub fn new(rt: &'a R, name: &'a str) -> FileTarget<'a, R> {
        FileTarget {
            rt,
            name,
            faults: 0,
            writes: 0,
        }
    }

    // Makes the file, of these bytes.
    fn make(&self, bytes: &[u8]) -> Result<(), WriteFailed> {
        match fs::create(self.rt, self.name) {
            Ok(file) => StreamSink::new(file).write(bytes),
            Err(_) => Err(WriteFailed),
        }
    }
}

impl<'a, R: Files> Sink for FileTarget<'a, R> {
    ghost use Rattle.std.specs.Prelude.{None};

    ghost written = { λ s. None };

    ghost faults = { λ s. s.faults };

    ghost writes = { λ s. s.writes };

    fn write(&mut self, bytes: &[u8]) -> Result<(), WriteFailed> {
        self.writes = self.writes.saturating_add(1);
        let answer = self.make(bytes);
        if answer.is_err() {
            self.faults = self.faults.saturating_add(1);
        }
        answer
    }
}
