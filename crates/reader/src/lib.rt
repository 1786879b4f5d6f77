// Whole files: the table of numbers, and the tag table.
#![tactic(auto)]

ghost use Rattle.std.specs.Prelude.{◌≡◌, ◌≤◌, length, drop, IfOk};
ghost use Rattle.format.specs.Bits.{order_named};
ghost use Rattle.format.specs.FileAndTags.{file as own_file, walk_list};
ghost use Rattle.format.specs.Reasons.{start_fault, walk_file, read_file, read_tags, into};
ghost use Rattle.reasons.specs.Numbers.{fault_of};
ghost use Rattle.bits.specs.Places.{order_of};
ghost use Rattle.answers.specs.Answers.{leaves};
ghost use Rattle.classes.specs.Classes.{class_by};
ghost use Rattle.lists.specs.Lists.{listed, walk_over};
ghost use Rattle.reader.specs.Survey.{surveyed, counted};

use answers::Answer;
use bits::{BytePlace, Order};
use classes::{Class, Scope};
use lists::{Fault, Lent, TagList, Walk};
use reasons::Reason;

// The highest level that has a meaning, and the bytes of the longest file.
const HIGHEST_LEVEL: u32 = 1023;

const LONGEST_FILE: usize = 16777216;

// 1 to 5 are tried in this order, and 24 after 1. A file that passes is read in the order that the number names.
pub fn start(level: u32, order: u32, file: &[u8]) -> Result<Order, Reason>
    ensures fault { fault_of result ≡ start_fault order level file.now }
    ensures named { IfOk result (λ named. order_of named ≡ order_named order) }
{
    if HIGHEST_LEVEL < level {
        return Err(Reason::LevelAbove1023);
    }
    let named = Order::try_from(order)?;
    let size = file.len();
    if size < 9 {
        return Err(Reason::FewerThan9Bytes);
    }
    if !file.starts_with(b"PAG") {
        return Err(Reason::SignatureWrong);
    }
    if file[3] != 1 {
        return Err(Reason::VersionNot1);
    }
    if headers::le32_at(file, 4) as usize != size || LONGEST_FILE < size {
        return Err(Reason::LengthFieldWrong);
    }
    Ok(named)
}

// The order that a file is read in, and how many numbers there are in its table and in its tag table.
#[derive(Clone, Copy, Debug, PartialEq, Eq)]
pub struct Counts {
    pub order: Order,
    pub numbers: usize,
    pub rows: usize,
}

// The tags at depth 0, which follow the header's nine bytes; eight depths may lie below them. The compression byte stands before their numbers. The
// classes of the codes are made here, once, and lent to every list.
fn read_tags(
    scope: Scope,
    level: u32,
    order: Order,
    file: &[u8],
    table: &mut [u64],
    rows: &mut [u32],
) -> Result<Counts, Fault>
    requires { (9 ≤ length file.now) × (length file.now ≤ 16777216) }
    ensures same { IfOk result (λ counts. counts.order ≡ order) }
    ensures filled { listed table.new rows.new (counted result) ≡ walk_over table.old 1 rows.old 0 (walk_list (order_of order) (class_by scope level) 8 own_file 9 (drop 9 file.now)) }
{
    let mut classes = [Class::Opaque; 1024];
    classes::fill_first(scope, level, &mut classes);
    let walk = Walk {
        classes: &classes,
        order,
    };
    let list = TagList {
        owner: None,
        depths: 8,
        at: BytePlace(9),
        room: &file[9..],
    };
    let mut lent = Lent {
        table,
        index: 1,
        rows,
        row: 0,
    };
    walk.read_list(&list, &mut lent)?;
    Ok(Counts {
        order,
        numbers: lent.index,
        rows: lent.row,
    })
}

// The run that counts: nothing is lent to it, so it finds the refusal, or how many numbers there are in the two tables.
fn survey(level: u32, order: u32, file: &[u8]) -> Result<Counts, Fault>
    ensures named { IfOk result (λ counts. order_of counts.order ≡ order_named order) }
    ensures found { counted result ≡ surveyed (walk_file order level file.now) }
{
    match start(level, order, file) {
        Err(why) => Err(Fault {
            why,
            place: BytePlace(0),
        }),
        Ok(named) => read_tags(Scope::All, level, named, file, &mut [], &mut []),
    }
}

// Reads a file into the table of numbers.
pub fn read(level: u32, order: u32, file: &[u8], table: &mut [u64]) -> Answer
    ensures { leaves table.new result ≡ into table.old (read_file order level file.now) }
{
    let counts = match survey(level, order, file) {
        Ok(counts) => counts,
        Err(fault) => return Answer::Refused(fault.why, fault.place.0 as u64),
    };
    if table.len() < counts.numbers {
        return Answer::Refused(Reason::TableTooShort, counts.numbers as u64);
    }
    table[0] = bits::byte_at(file, 8);
    let _ = read_tags(Scope::All, level, counts.order, file, table, &mut []);
    Answer::Accepted(counts.numbers as u64)
}

// Reads a file's tags into the tag table. All bodies were judged by the run that counts, so the run that fills reads the lists alone.
// Stays: beside `read` it differs in the table that is lent, its type, the scope and the first number; one function over both would take all of that, and is no plainer.
pub fn tags(level: u32, order: u32, file: &[u8], tags: &mut [u32]) -> Answer
    ensures { leaves tags.new result ≡ into tags.old (read_tags order level file.now) }
{
    let counts = match survey(level, order, file) {
        Ok(counts) => counts,
        Err(fault) => return Answer::Refused(fault.why, fault.place.0 as u64),
    };
    if tags.len() < counts.rows {
        return Answer::Refused(Reason::TableTooShort, counts.rows as u64);
    }
    let _ = read_tags(Scope::Lists, level, counts.order, file, &mut [], tags);
    Answer::Accepted(counts.rows as u64)
}
