// The file of a table of numbers.
#![tactic(auto)]

ghost use Rattle.std.specs.Prelude.{◌≡◌, [], ◌≤◌, ◌<◌, length, drop};
ghost use Rattle.std.proofs.lemmas.List.Edits.{sets};
ghost use Rattle.format.specs.WritingFiles.{unwalk_list};
ghost use Rattle.format.specs.Reasons.{Writes};
ghost use Rattle.bits.specs.Places.{order_of};
ghost use Rattle.tags.specs.Lent.{classes_in, Tabled};
ghost use Rattle.answers.specs.Answers.{leaves};
ghost use Rattle.write_lists.specs.Stood.{over, stood_as};
ghost use Rattle.writer.specs.Files.{start};

use answers::Answer;
use bits::{BytePlace, Order};
use classes::{Class, Scope};
use reasons::Reason;
use sink::Impossible;
use write_lists::Reached;

// The highest level that has a meaning, and the highest byte.
const HIGHEST_LEVEL: u32 = 1023;

const HIGHEST_BYTE: u64 = 255;

// The first nine bytes of a file: "PAG", version 1, the length n of the whole file, and the compression byte.
fn put_start(out: &mut [u8], length: u64, compression: u64)
    requires { (length < 4294967296) × (compression < 256) }
    ensures { out.new ≡ sets out.old 0 (start length compression) }
{
    write_heads::put32(out, BytePlace(0), 0x01474150);
    write_heads::put32(out, BytePlace(4), length);
    sink::put_byte(out, 8, compression);
}

// How the tags of a table end: where the file would, if it has one. Nothing lent is touched: the run is on an empty output of its own.
fn measure(classes: &[Class], order: Order, table: &[u64]) -> Result<Reached, Impossible>
    requires { Tabled classes.now × (1 ≤ length table.now) }
    ensures { stood_as [] result ≡ over [] 9 1 (unwalk_list (order_of order) (classes_in classes.now) 8 (drop 1 table.now)) }
{
    write_lists::write_list(classes, order, 8, &mut [], BytePlace(9), table, 1)
}

// Writes the file that this level and order read as the table: 1, 24, 20 and 21 are tried in this order, and a refusal changes nothing lent.
pub fn write(level: u32, order: u32, table: &[u64], out: &mut [u8]) -> Answer
    ensures { Writes order level table.now out.old (leaves out.new result) }
{
    if HIGHEST_LEVEL < level {
        return Answer::Refused(Reason::LevelAbove1023, 0);
    }
    let Ok(order) = Order::try_from(order) else {
        return Answer::Refused(Reason::OrderUnknown, 0);
    };
    let Some(&compression) = table.first() else {
        return Answer::Refused(Reason::NoFileHasThisTable, 0);
    };
    if HIGHEST_BYTE < compression {
        return Answer::Refused(Reason::NoFileHasThisTable, 0);
    }
    let mut classes = [Class::Opaque; 1024];
    classes::fill_first(Scope::All, level, &mut classes);
    let Ok(reached) = measure(&classes, order, table) else {
        return Answer::Refused(Reason::NoFileHasThisTable, 0);
    };
    if reached.index < table.len() {
        return Answer::Refused(Reason::NoFileHasThisTable, 0);
    }
    let length = reached.place.0;
    if out.len() < length {
        return Answer::Refused(Reason::OutputTooShort, length as u64);
    }
    let _ = write_lists::write_list(&classes, order, 8, out, BytePlace(9), table, 1);
    put_start(out, length as u64, compression);
    Answer::Accepted(length as u64)
}
