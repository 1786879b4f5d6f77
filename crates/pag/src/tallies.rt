// The export of the tally.
ghost use Rattle.std.specs.Prelude.{◌≡◌};
ghost use Rattle.tally.specs.Adding.{adding};
ghost use Rattle.pag.specs.PlainTally.{tally_of, leaves_tally};

use crate::PagAnswer;
use tally::Tally;

// Adds a file to a host's tally: its 1,024 counts and its header count are lent.
#[unsafe(no_mangle)]
pub extern "C" fn pag_tally(
    counts: &mut [u64; 1024],
    headers: &mut u64,
    level: u32,
    order: u32,
    file: &[u8],
) -> PagAnswer
    ensures { leaves_tally counts.new headers.new result (adding order level (tally_of counts.old headers.old) file.now) }
{
    let before = *counts;
    let tally = Tally {
        counts: before,
        headers: *headers,
    };
    let added = tally::add(tally, level, order, file);
    let after = added.tally;
    let numbers = after.counts;
    *counts = numbers;
    *headers = after.headers;
    PagAnswer::from(added.answer)
}
