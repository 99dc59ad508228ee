//! The files that a call meets, and what fails in it.
use pg_outside::{MemShelf, MemSink};
use std::alloc::{AllocError, Global};

/// The room of each sink, in bytes, where a case does not say another.
const ROOM: usize = 4194304;

/// The files that a call meets, and what fails in it.
#[derive(Drop)]
pub struct World {
    files: Vec<(String, Vec<u8>)>,
    /// The room for what is written.
    pub room: usize,
    /// What the last call of the case wrote.
    pub written: Vec<u8>,
    /// The numbers of the fetches that fail, from 1.
    pub fetches: Vec<u64>,
    /// The numbers of the writes that fail, from 1, each with how many bytes it takes.
    pub writes: Vec<(u64, u64)>,
    /// The same of the pieces of what is said.
    pub says: Vec<(u64, u64)>,
}

impl World {
    /// No files, and nothing fails.
    pub fn new(alloc: Global) -> World {
        World {
            files: Vec::new(alloc),
            room: ROOM,
            written: Vec::new(alloc),
            fetches: Vec::new(alloc),
            writes: Vec::new(alloc),
            says: Vec::new(alloc),
        }
    }

    /// Puts a file into the place of what had its name.
    pub fn put(&mut self, alloc: Global, name: &str, bytes: Vec<u8>) -> Result<(), AllocError> {
        // Of two files with one name the first counts.
        let name = String::from_str(alloc, name)?;
        self.files.insert(0, (name, bytes))?;
        Ok(())
    }

    /// A shelf with these files, of which the stated ones cannot be read.
    pub fn shelf(&self, alloc: Global) -> Result<MemShelf, AllocError> {
        let mut files = Vec::new(alloc);
        for (name, bytes) in &self.files {
            files.push((
                String::from_str(alloc, name.as_str())?,
                bytes.to_vec(alloc)?,
            ))?;
        }
        Ok(MemShelf::new(files, self.fetches.to_vec(alloc)?))
    }

    /// A sink for what is written.
    pub fn out(&self, alloc: Global) -> Result<MemSink, AllocError> {
        MemSink::new(alloc, self.room, self.writes.to_vec(alloc)?)
    }

    /// A sink for what is said.
    pub fn say(&self, alloc: Global) -> Result<MemSink, AllocError> {
        MemSink::new(alloc, ROOM, self.says.to_vec(alloc)?)
    }
}
