//! Files of paragraphs.
ghost use Rattle.std.specs.Prelude.{◌<◌, ◌^◌, length};
ghost use Rattle.pg_showbox.specs.Reading.{Gives};
ghost use Rattle.pg_hlist.specs.Reading.{paras_of};

use pg_hlist::Paras;
use pg_showbox::ListFault;
use std::alloc::Global;

/// The paragraphs of a file.
pub fn read_paras(alloc: Global, text: &[u8]) -> Result<Paras, ListFault>
    requires { length text.now < 2 ^ 31 }
    ensures { Gives (λ paras. paras) result (paras_of text.now) }
{
    pg_hlist::read_paras(alloc, text)
}
