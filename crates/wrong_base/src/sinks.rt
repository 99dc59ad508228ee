//! Places that take bytes.
ghost use Rattle.std.specs.Prelude.{◌≡◌, ◌≤◌, OnOk, OnErr, is_ok, if◌then◌else◌};
ghost use Rattle.std.specs.Io.KnownBytes.{Appends};
ghost use Rattle.pg_outside.specs.Outside.{AppendsFront, Rose, next_number};

use pg_outside::{Sink, StreamSink, WriteFailed};
use std::io::Write;

/// Writes bytes to any sink.
pub fn write<O: Sink>(sink: &mut O, bytes: &[u8]) -> Result<(), WriteFailed>
    ensures all { OnOk result (Appends (O.written sink.old) (O.written sink.new) bytes.now) }
    ensures front { OnErr result (AppendsFront (O.written sink.old) (O.written sink.new) bytes.now) }
    ensures cause { OnErr result (Rose (O.faults sink.old) (O.faults sink.new)) }
    ensures later { O.faults sink.old ≤ O.faults sink.new }
    ensures writes { O.writes sink.new ≡ next_number (O.writes sink.old) }
{
    sink.write(bytes)
}

/// Writes bytes to a sink over any writer.
pub fn write_stream<W: Write>(stream: &mut StreamSink<W>, bytes: &[u8]) -> Result<(), WriteFailed>
    ensures all { OnOk result
        (Appends (W.contents stream.old.inner) (W.contents stream.new.inner) bytes.now) }
    ensures front { OnErr result
        (AppendsFront (W.contents stream.old.inner) (W.contents stream.new.inner) bytes.now) }
    ensures cause { OnErr result (Rose stream.old.faults stream.new.faults) }
    ensures later { stream.old.faults ≤ stream.new.faults }
    ensures faults { stream.new.faults
        ≡ (if is_ok result then stream.old.faults else next_number stream.old.faults) }
{
    stream.write(bytes)
}
