//! Files by name.
ghost use Rattle.std.specs.Prelude.{None, Some, ◌≡◌, ◌≤◌, ◌+◌, [], length, OnOk, OnErr, if◌then◌else◌};
ghost use Rattle.pg_outside.specs.Answers.{IsAnswer, OnFailed, OnMissing, OnTooLong, is_failed};
ghost use Rattle.pg_outside.specs.Files.{answer_of, bytes_given, file_named};
ghost use Rattle.pg_outside.specs.Outside.{nothing_told, Rose, IsFile, IsMissing, IsTooLong};
ghost use Rattle.pg_outside.specs.Outside.{IsFrontOfFile, LastFailed, next_number};

use pg_outside::{Fetch, FileShelf, MemShelf, Shelf};
use std::alloc::Global;
use std::rt::Files;

/// A file of any shelf.
pub fn fetch<H: Shelf>(
    shelf: &mut H,
    alloc: Global,
    name: &str,
    cap: u64,
    into: &mut Vec<u8>,
) -> Result<(), Fetch>
    ensures same { H.held shelf.new ≡ H.held shelf.old }
    ensures found { OnOk result (IsFile (H.held shelf.old) name.now into.new.items) }
    ensures short { OnOk result (length into.new.items ≤ cap) }
    ensures missing { OnMissing result
        (IsMissing (H.held shelf.old) name.now (H.faults shelf.old) (H.faults shelf.new)) }
    ensures empty { OnMissing result (into.new.items ≡ []) }
    ensures too_long { OnTooLong result (IsTooLong (H.held shelf.old) name.now cap into.new.items) }
    ensures one_more { OnTooLong result (length into.new.items ≡ cap + 1) }
    ensures front { OnErr result (IsFrontOfFile (H.held shelf.old) name.now into.new.items) }
    ensures failed { OnFailed result (Rose (H.faults shelf.old) (H.faults shelf.new)) }
    ensures later { H.faults shelf.old ≤ H.faults shelf.new }
    ensures last { LastFailed (H.held shelf.old) name.now
        (H.last_failed shelf.old) (H.last_failed shelf.new) result }
{
    shelf.fetch(alloc, name, cap, into)
}

/// A file under the working folder.
pub fn fetch_file<R: Files>(
    files: &mut FileShelf<'_, R>,
    alloc: Global,
    name: &str,
    cap: u64,
    into: &mut Vec<u8>,
) -> Result<(), Fetch>
    ensures same { nothing_told ≡ nothing_told }
    ensures found { OnOk result (IsFile None name.now into.new.items) }
    ensures short { OnOk result (length into.new.items ≤ cap) }
    ensures missing { OnMissing result (IsMissing None name.now files.old.faults files.new.faults) }
    ensures empty { OnMissing result (into.new.items ≡ []) }
    ensures too_long { OnTooLong result (IsTooLong None name.now cap into.new.items) }
    ensures one_more { OnTooLong result (length into.new.items ≡ cap + 1) }
    ensures front { OnErr result (IsFrontOfFile None name.now into.new.items) }
    ensures failed { OnFailed result (Rose files.old.faults files.new.faults) }
    ensures later { files.old.faults ≤ files.new.faults }
    ensures last { LastFailed None name.now files.old.last_failed files.new.last_failed result }
    ensures never_missing { OnMissing result ⊥ }
    ensures faults { files.new.faults
        ≡ (if is_failed result then next_number files.old.faults else files.old.faults) }
    ensures last_failed { files.new.last_failed
        ≡ (if is_failed result then Some name.now else files.old.last_failed) }
{
    files.fetch(alloc, name, cap, into)
}

/// A file in memory.
pub fn fetch_kept(
    kept: &mut MemShelf,
    alloc: Global,
    name: &str,
    cap: u64,
    into: &mut Vec<u8>,
) -> Result<(), Fetch>
    ensures same { Some (file_named kept.new.files) ≡ Some (file_named kept.old.files) }
    ensures found { OnOk result (IsFile (Some (file_named kept.old.files)) name.now into.new.items) }
    ensures short { OnOk result (length into.new.items ≤ cap) }
    ensures missing { OnMissing result
        (IsMissing (Some (file_named kept.old.files)) name.now kept.old.faults kept.new.faults) }
    ensures empty { OnMissing result (into.new.items ≡ []) }
    ensures too_long { OnTooLong result
        (IsTooLong (Some (file_named kept.old.files)) name.now cap into.new.items) }
    ensures one_more { OnTooLong result (length into.new.items ≡ cap + 1) }
    ensures front { OnErr result (IsFrontOfFile (Some (file_named kept.old.files)) name.now into.new.items) }
    ensures failed { OnFailed result (Rose kept.old.faults kept.new.faults) }
    ensures later { kept.old.faults ≤ kept.new.faults }
    ensures last { LastFailed (Some (file_named kept.old.files)) name.now
        kept.old.last_failed kept.new.last_failed result }
    ensures answer { IsAnswer result (answer_of kept.old name.now cap) }
    ensures bytes { into.new.items ≡ bytes_given result (file_named kept.old.files name.now) cap }
    ensures faults { kept.new.faults
        ≡ (if is_failed result then next_number kept.old.faults else kept.old.faults) }
    ensures last_failed { kept.new.last_failed
        ≡ (if is_failed result then Some name.now else kept.old.last_failed) }
    ensures fetches { kept.new.fetches ≡ next_number kept.old.fetches }
    ensures files { kept.new.files ≡ kept.old.files }
    ensures fails { kept.new.fails ≡ kept.old.fails }
{
    kept.fetch(alloc, name, cap, into)
}
