// The text of a tally.
#![tactic(auto)]

ghost use Rattle.std.specs.Prelude.{◌≡◌, ◌+◌, ◌*◌, ◌≤◌, length};
ghost use Rattle.listing.specs.Steps.{laid, lays};
ghost use Rattle.listing.specs.Texts.{Adds};
ghost use Rattle.tally_text.specs.Report.{header_line, count_line, count_lines, report};

use listing::fields::Text;
use tally::Tally;

// The count that has no line.
const UNPRINTED: u64 = 0;

// `header` and the header count.
fn put_header(text: &mut Text<'_>, headers: u64)
    requires { text.old.used + 28 ≤ length text.old.out.now }
    ensures { Adds text.old text.new (header_line headers) × (text.new.used ≤ text.old.used + 28) }
{
    text.word(b"header\t");
    text.field(headers, b'\n');
}

// A code and its count, unless that is zero.
fn put_count(text: &mut Text<'_>, code: usize, count: u64)
    requires { text.old.used + 42 ≤ length text.old.out.now }
    ensures { Adds text.old text.new (count_line code count) × (text.new.used ≤ text.old.used + 42) }
{
    if count == UNPRINTED {
        return;
    }
    text.field(code as u64, b'\t');
    text.field(count, b'\n');
}

// The counts, in the order of their codes.
fn put_counts(text: &mut Text<'_>, counts: &[u64])
    requires { text.old.used + 42 * length counts.now ≤ length text.old.out.now }
    ensures { Adds text.old text.new (count_lines 0 counts.now) × (text.new.used ≤ text.old.used + 42 * length counts.now) }
{
    for (code, count) in counts.iter().enumerate() {
        put_count(text, code, *count);
    }
}

// All that is printed of a tally. `header`, a tab, 20 digits and a newline have 28 bytes, and a count's line has 42 at most.
pub fn put_tally(tally: Tally, out: &mut [u8; 43036]) -> usize
    ensures { (laid out.new result ≡ lays out.old 0 (report tally)) × (result ≤ 43036) }
{
    let mut text = Text { out, used: 0 };
    put_header(&mut text, tally.headers);
    put_counts(&mut text, &tally.counts);
    text.used
}
