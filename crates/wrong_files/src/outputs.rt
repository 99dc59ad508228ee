//! Output texts.
ghost use Rattle.std.specs.Prelude.{◌<◌, ◌^◌, length, IfOk};
ghost use Rattle.pg_labels.specs.Reading.{Gives, IsFew, output_of};

use pg_labels::{Output, OutputFault};
use std::alloc::Global;

/// What an output text shows.
pub fn read_output(alloc: Global, text: &[u8]) -> Result<Output, OutputFault>
    requires { length text.now < 2 ^ 31 }
    ensures said { Gives result (output_of text.now) }
    ensures few { IfOk result IsFew }
{
    pg_labels::read_output(alloc, text)
}
