// One tag: its numbers in the lent table, and its row in the lent tag table.
#![tactic(auto)]

ghost use Rattle.std.specs.Prelude.{◌≡◌, [], ◌∷◌, ◌+◌, ◌<◌, ◌^◌, length};
ghost use Rattle.std.proofs.lemmas.List.Edits.{sets};
ghost use Rattle.format.specs.Tests.{pick};
ghost use Rattle.format.specs.FileAndTags.{is_read, long_on_short, state_of, packed};
ghost use Rattle.classes.specs.Classes.{bare};
ghost use Rattle.bodies.specs.Shown.{Starts, Shows};
ghost use Rattle.tags.specs.Shown.{values_of, list_of, headed};
ghost use Rattle.bits.specs.Places.{order_of};

use bits::{BytePlace, fields};
use classes::Class;
use reasons::Reason;
use table::Reader;

// An opaque body, packed: its length, and then eight bytes to a number, by one load where eight are there. Where there is no room, no byte of it is touched.
fn pack_bytes(body: &[u8], table: &mut [u64], from: usize)
    requires { (length body.now < 2 ^ 60) × (from < 2 ^ 61) }
    ensures { table.new ≡ sets table.old from (packed body.now) }
{
    let whole = body.len() / 8;
    let first = from + 1;
    table::put(table, from, body.len() as u64);
    for i in 0..table::room_for(table.len(), first, whole) {
        table[first + i] = fields::eight(body, 8 * i);
    }
    let last = first + whole;
    let rest = &body[8 * whole..];
    if !rest.is_empty() && last < table.len() {
        table[last] = fields::few(rest);
    }
}

// The values of a tag, by its class. Those of a container stand before its list, if it has one: the byte where it starts is told.
fn read_tag_values(
    reader: &mut Reader<'_>,
    class: Class,
    code: u32,
) -> Result<Option<BytePlace>, Reason>
    requires { Starts reader.old }
    ensures { Shows reader.old reader.new result (values_of (order_of reader.old.order) class code reader.old.body.now) (list_of (order_of reader.old.order) class code reader.old.body.now) }
{
    match class {
        Class::Opaque => {
            pack_bytes(reader.body, reader.table, reader.index);
            reader.index += 1 + (reader.body.len() + 7) / 8;
            Ok(None)
        }
        Class::End => Ok(None),
        Class::Container => bodies::read_container(reader, code),
        Class::Fixed | Class::Attributes => {
            bodies::read_leaf(reader, class == Class::Attributes, code)?;
            Ok(None)
        }
    }
}

// Whether a long header carries a body below 63.
pub fn long_on_short(size: u32, len: u32) -> bool
    ensures { result ≡ long_on_short size len }
{
    size == 6 && len < 63
}

// 1 read, 0 opaque; it gains 2 where a long header carries a body below 63.
pub fn state(class: Class, gains: bool) -> u64
    ensures { result ≡ is_read (bare class) + pick gains 2 0 }
{
    u64::from(class != Class::Opaque) + 2 * u64::from(gains)
}

// Stores values from an index on where there is room for them: all of them by one test, or those before the end of what is lent.
fn put_all<T: Copy>(lent: &mut [T], from: usize, values: &[T])
    requires { from + length values.now < 2 ^ 62 }
    ensures { lent.new ≡ sets lent.old from values.now }
{
    if lent.len() <= from {
        return;
    }
    let room = lent.len() - from;
    if values.len() <= room {
        lent[from..from + values.len()].copy_from_slice(values);
    } else {
        lent[from..].copy_from_slice(&values[..room]);
    }
}

// A tag's numbers, with a header of this size: its values are stored first, behind its code, its state and their count. The walk that counts has no room
// for any of them.
pub fn show_tag(
    reader: &mut Reader<'_>,
    class: Class,
    code: u32,
    size: u32,
) -> Result<Option<BytePlace>, Reason>
    requires starts { reader.old.place.0 ≡ 0 }
    requires few { length reader.old.body.now < 2 ^ 32 }
    requires room { reader.old.index < 2 ^ 60 }
    ensures { Shows reader.old reader.new result (headed code (state_of (bare class) size (length reader.old.body.now)) (values_of (order_of reader.old.order) class code reader.old.body.now)) (list_of (order_of reader.old.order) class code reader.old.body.now) }
{
    let from = reader.index;
    reader.index += 3;
    let shown = read_tag_values(reader, class, code);
    let gains = long_on_short(size, reader.body.len() as u32);
    let count = (reader.index - (from + 3)) as u64;
    put_all(
        reader.table,
        from,
        &[u64::from(code), state(class, gains), count],
    );
    shown
}

// A tag's row: depth, code, place in the file, header size, body length.
pub fn show_row(
    depth: u32,
    code: u32,
    place: BytePlace,
    size: u32,
    len: u32,
    rows: &mut [u32],
    row: usize,
)
    requires { (place.0 < 2 ^ 32) × (row < 2 ^ 60) }
    ensures { rows.new ≡ sets rows.old row (depth ∷ code ∷ place.0 ∷ size ∷ len ∷ []) }
{
    put_all(rows, row, &[depth, code, place.0 as u32, size, len]);
}
