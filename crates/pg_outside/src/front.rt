//! The front of what a reader gives.
ghost use Rattle.std.specs.Prelude.{◌≡◌, ◌≤◌, ◌<◌, ◌+◌, [], length, take, OnOk, IfSome};
ghost use Rattle.pg_outside.specs.Answers.{OnTooLong, OnMissing};

use crate::Fetch;
use std::io::Read;

// Reads until the end, or until there are `cap` bytes and one more. Each turn takes at least one byte.
pub fn read_front<F: Read>(file: &mut F, cap: u64, into: &mut Vec<u8>) -> Result<(), Fetch>
    requires { into.old.items ≡ [] }
    ensures short { OnOk result (length into.new.items ≤ cap) }
    ensures one_more { OnTooLong result (length into.new.items ≡ cap + 1) }
    ensures found { OnMissing result ⊥ }

    // As far as the reader tells what it gives, no byte is lost.
    ensures whole { OnOk result (IfSome (F.remaining file.old) (λ all. into.new.items ≡ all)) }
    ensures longer { OnTooLong result (IfSome (F.remaining file.old) (λ all. cap < length all)) }
    ensures front { IfSome (F.remaining file.old) (λ all. take (length into.new.items) all ≡ into.new.items) }
{
    let mut buffer = [0u8; 4096];
    'turns: while into.len() as u64 <= cap {
        let left = cap - into.len() as u64;
        let want = if left < 4095 { left as usize + 1 } else { 4096 };
        match file.read(&mut buffer[..want]) {
            Err(_) => return Err(Fetch::Failed),
            Ok(0) => return Ok(()),
            Ok(count) => {
                if into.extend_from_slice(&buffer[..count]).is_err() {
                    return Err(Fetch::Memory);
                }
            }
        }
    }
    Err(Fetch::TooLong)
}
