//! What no clause says: the content that real files move, and the refusal of a writer that fails midway. No call takes a
//! reader from outside, so that none is tried here that fails midway.
use pg_outside::{Fetch, FileShelf, MemShelf, MemSink, Shelf, Sink, StreamSink, WriteFailed};
use std::alloc::{AllocError, Global};
use std::io::Write;
use std::test::Fail;
use std::{fs, io};

// It takes two bytes a turn, and fails after some turns.
#[derive(Drop)]
struct SlowWriter<W> {
    turns: u8,
    inner: W,
}

impl<W: Write> Write for SlowWriter<W> {
    fn write(&mut self, buf: &[u8]) -> io::Result<usize> {
        if self.turns == 0 {
            return Err(io::Error::from(io::ErrorKind::TimedOut));
        }
        self.turns -= 1;
        self.inner.write(&buf[..buf.len().min(2)])
    }

    fn flush(&mut self) -> io::Result<()> {
        self.inner.flush()
    }
}

#[test]
fn a_writer_that_fails_midway_takes_a_front(rt: HostRuntime) -> Result<(), Fail> {
    let mut sink = StreamSink::new(SlowWriter {
        turns: 3,
        inner: fs::create(&rt, "six")?,
    });
    let told = (sink.write(b"1234"), sink.write(b"5678"));
    assert_eq!(rt; told, (Ok(()), Err(WriteFailed)));
    assert_eq!(rt; fs::read(&rt, "six")?.as_slice(), b"123456".as_slice());
    Ok(())
}

#[test]
fn a_stream_writes_the_file_that_a_shelf_fetches(rt: HostRuntime) -> Result<(), Fail> {
    let alloc = rt.alloc();
    let mut sink = StreamSink::new(fs::create(&rt, "ten")?);
    let written = (sink.write(b"12345"), sink.write(b"67890"));
    let mut into = b"before".to_vec(alloc)?;
    let fetched = FileShelf::new(&rt).fetch(alloc, "ten", 10, &mut into);
    assert_eq!(rt; (written, fetched), ((Ok(()), Ok(())), Ok(())));
    assert_eq!(rt; into.as_slice(), b"1234567890".as_slice());
    Ok(())
}

#[test]
fn a_file_that_is_longer_or_is_not_there_is_refused(rt: HostRuntime) -> Result<(), Fail> {
    let alloc = rt.alloc();
    let mut sink = StreamSink::new(fs::create(&rt, "nine")?);
    let written = sink.write(b"123456789");
    let mut shelf = FileShelf::new(&rt);
    let mut into = Vec::new(alloc);
    let long = shelf.fetch(alloc, "nine", 7, &mut into);
    assert_eq!(rt; into.as_slice(), b"12345678".as_slice());
    let none = shelf.fetch(alloc, "none", 10, &mut into);
    assert_eq!(rt;
        (written, long, none),
        (Ok(()), Err(Fetch::TooLong), Err(Fetch::Failed))
    );
    Ok(())
}

// A shelf with two files of one name, of which the second cannot be read.
fn two_files(alloc: Global) -> Result<MemShelf, AllocError> {
    let mut files = Vec::new(alloc);
    files.push((String::from_str(alloc, "a")?, b"first".to_vec(alloc)?))?;
    files.push((String::from_str(alloc, "a")?, b"second".to_vec(alloc)?))?;
    Ok(MemShelf::new(files, [2].to_vec(alloc)?))
}

#[test]
fn memory_holds_what_is_put_there(rt: HostRuntime) -> Result<(), Fail> {
    let alloc = rt.alloc();
    let mut shelf = two_files(alloc)?;
    let mut into = Vec::new(alloc);
    let first = shelf.fetch(alloc, "a", 5, &mut into);
    assert_eq!(rt; into.as_slice(), b"first".as_slice());
    let second = shelf.fetch(alloc, "a", 5, &mut into);
    let other = shelf.fetch(alloc, "b", 5, &mut into);
    assert_eq!(rt;
        (first, second, other),
        (Ok(()), Err(Fetch::Failed), Err(Fetch::Missing))
    );
    Ok(())
}

#[test]
fn memory_takes_what_has_room_there(rt: HostRuntime) -> Result<(), Fail> {
    let alloc = rt.alloc();
    let mut sink = MemSink::new(alloc, 8, [(2, 1)].to_vec(alloc)?)?;
    let told = (sink.write(b"abc"), sink.write(b"def"), sink.write(b"ghijk"));
    assert_eq!(rt; told, (Ok(()), Err(WriteFailed), Err(WriteFailed)));
    assert_eq!(rt; sink.bytes(), b"abcdghij".as_slice());
    Ok(())
}
