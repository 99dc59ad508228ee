//! Scripts of edits.
ghost use Rattle.std.specs.Prelude.{◌<◌, ◌^◌, length, IfErr};
ghost use Rattle.pg_edits.specs.Kinds.{IsScriptKind};
ghost use Rattle.pg_edits.specs.Script.{Gives, script_of};

use pg_edits::{Script, ScriptFault};
use std::alloc::Global;

/// The steps of a script.
pub fn read_script(alloc: Global, text: &[u8]) -> Result<Script, ScriptFault>
    requires { length text.now < 2 ^ 31 }
    ensures said { Gives result (script_of text.now) }
    ensures kind { IfErr result (λ fault. IsScriptKind fault.kind) }
{
    pg_edits::read_script(alloc, text)
}
