// Where the bytes go: a tally of what files spend on each tag.
#![tactic(auto)]

ghost use Rattle.std.specs.Prelude.{◌≡◌, ◌+◌, ◌<◌, ◌≤◌, length};
ghost use Rattle.format.specs.Reasons.{IsFile};
ghost use Rattle.bits.specs.Places.{order_of};
ghost use Rattle.tally.specs.Adding.{at_zero, with_file, is_full, adding, leaves};
ghost use Rattle.tally.specs.Places.{list_in, next_by, NoneAbove, Good, tags_in};

use answers::Answer;
use bits::{BitPlace, BytePlace, Order};
use classes::Class;
use headers::Header;
use reasons::Reason;
use table::Reader;

// A tally whose header count has come to this, or with a count above that, takes no file.
const HEADERS_LIMIT: u64 = 9000000;

const COUNT_LIMIT: u64 = 16777216000000;

// A count for each of the 1,024 codes, and one for file headers, in bytes.
#[derive(Clone, Copy, Debug, PartialEq, Eq)]
pub struct Tally {
    pub counts: [u64; 1024],
    pub headers: u64,
}

// The tally afterwards, and the answer: accepted with the file's length, or refused with reason and number.
// Stays: document 01 hands a tally on by value.
#[derive(Clone, Copy, Debug, PartialEq, Eq)]
pub struct Added {
    pub tally: Tally,
    pub answer: Answer,
}

impl Tally {
    // It starts at zero.
    pub fn new() -> Self
        ensures { result ≡ at_zero }
    {
        Tally {
            counts: [0; 1024],
            headers: 0,
        }
    }
}

// Whether a file is beyond the limit, or a count is above 16,777,216,000,000.
fn is_full(tally: &Tally) -> bool
    ensures { result ≡ is_full tally.now }
{
    HEADERS_LIMIT <= tally.headers || tally.counts.iter().any(|&count| COUNT_LIMIT < count)
}

// Where a container's list starts in its body: behind its own part; where the body ends, if it has none.
fn list_in(order: Order, code: u32, body: &[u8]) -> usize
    requires { length body.now ≤ 16777216 }
    ensures { result ≡ list_in (order_of order) code body.now }
{
    let mut reader = Reader {
        order,
        body,
        place: BitPlace(0),
        table: &mut [],
        index: 0,
    };
    match bodies::read_container(&mut reader, code) {
        Ok(Some(list)) => list.0,
        _ => body.len(),
    }
}

// Where the tag that comes next in file order starts: in a container where its list starts, else where the body ends.
fn next_place(order: Order, class: Class, header: Header, file: &[u8], place: usize) -> usize
    requires { (place + header.size + header.length ≤ length file.now) × (length file.now ≤ 16777216) }
    ensures { result ≡ next_by (order_of order) class header.code header.length (place + header.size) file.now }
{
    let start = place + header.size as usize;
    let stop = start + header.length as usize;
    match class {
        Class::Container => start + list_in(order, header.code, &file[start..stop]),
        _ => stop,
    }
}

// Adds a file that was judged: the bytes from each tag's place to the next one's, which are its own, to its code's count.
fn with_file(tally: &mut Tally, level: u32, order: Order, file: &[u8])
    requires { Good (order_of order) level file.now × IsFile file.now × NoneAbove 16777216000000 tally.old.counts × (tally.old.headers < 9000000) }
    ensures { tally.new ≡ with_file tally.old (tags_in (order_of order) level file.now) }
{
    let classes = classes::all();
    let mut place = 9;
    while place < file.len() {
        let header = headers::raw_head(file, BytePlace(place)).unwrap();
        let code = header.code;
        let listed = classes[(code / 32) as usize][(code % 32) as usize];
        let class = classes::at_level(level, code, listed);
        let next = next_place(order, class, header, file, place);
        tally.counts[code as usize] += (next - place) as u64;
        place = next;
    }
    tally.headers += 9;
}

// Adds a file to a tally. The tag table of a good file has no room in memory that is not lent, so 19 says that it is good.
pub fn add(mut tally: Tally, level: u32, order: u32, file: &[u8]) -> Added
    ensures { leaves result ≡ adding order level tally file.now }
{
    if is_full(&tally) {
        return Added {
            tally,
            answer: Answer::Refused(Reason::TallyFull, 0),
        };
    }
    let judged = reader::tags(level, order, file, &mut []);
    if let Answer::Refused(reason, _) = judged {
        if reason != Reason::TableTooShort {
            return Added {
                tally,
                answer: judged,
            };
        }
    }
    answers::is_file(file);
    let named = Order::try_from(order).unwrap();
    with_file(&mut tally, level, named, file);
    Added {
        tally,
        answer: Answer::Accepted(file.len() as u64),
    }
}
