// The single-precision value of a path step, for hosts (C-23).
ghost use Rattle.std.specs.Prelude.{◌≡◌};
ghost use Rattle.singles.specs.Single.{single};
ghost use Rattle.pag.specs.Plain.{plain_of};

use crate::PagAnswer;

#[unsafe(no_mangle)]
pub extern "C" fn pag_single(step: i64) -> PagAnswer
    ensures { result ≡ plain_of (single step) }
{
    PagAnswer::from(singles::single(step))
}
