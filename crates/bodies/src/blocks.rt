// Attribute blocks: the flags of all attributes, then each attribute's flag number and content.
ghost use Rattle.std.specs.Prelude.{◌≡◌, ◌+◌, ◌≤◌, ◌^◌, length, take, IfOk, Ok};
ghost use Rattle.format.specs.Formats.{Item, item, ◌▸◌};
ghost use Rattle.format.specs.Items.{run};
ghost use Rattle.format.specs.Bodies.{content, rows as rows_of, all_flags, read_block};
ghost use Rattle.table.specs.Readers.{Reads, Room};
ghost use Rattle.attributes.specs.Rows.{attribute_of, attributes_in};
ghost use Rattle.attributes.specs.Flags.{flags_as, FlagsRead};
ghost use Rattle.bits.specs.Places.{order_of};
ghost use Rattle.bodies.specs.Shown.{Starts, Lays};

use attributes::{Attribute, Content};
use bits::Number;
use reasons::Reason;
use table::Reader;

// The content of an attribute, by its flag number.
fn read_content(reader: &mut Reader<'_>, row: Attribute, flag: u64) -> Result<(), Reason>
    requires { Room reader.old }
    ensures { Reads reader.old reader.new result (content (attribute_of row) flag) }
{
    match attributes::content_of(row.kind, flag) {
        Content::Nothing => Ok(()),
        Content::One => values::read_value(reader, row.data_type),
        Content::Frames => {
            values::keyframes::read_keyframed(reader, row.kind, row.data_type, flag)
        }
    }
}

// An attribute: its flag number, which takes no bits, and its content.
fn read_attribute(reader: &mut Reader<'_>, row: Attribute, flag: u64) -> Result<(), Reason>
    requires { reader.old.index + 1 ≤ reader.old.place.0 + 2 ^ 62 }
    ensures { Reads reader.old reader.new result (item (Item.echo flag) ▸ content (attribute_of row) flag) }
{
    table::put(reader.table, reader.index, flag);
    reader.index += 1;
    read_content(reader, row, flag)
}

// The attributes of these rows, in order, with the flag numbers that were read for them.
pub fn read_contents(
    reader: &mut Reader<'_>,
    rows: &[Attribute],
    numbers: u64,
) -> Result<(), Reason>
    requires few { length rows.now ≤ 12 }
    requires room { reader.old.index + 12 ≤ reader.old.place.0 + 2 ^ 62 }
    ensures { Reads reader.old reader.new result (rows_of (attributes_in rows.now) (take (length rows.now) (flags_as numbers))) }
{
    let mut flags = numbers;
    for &row in rows {
        read_attribute(reader, row, flags % 8)?;
        flags /= 8;
    }
    Ok(())
}

// An attribute block, which stands at the start of a body. Its flags are told.
pub(crate) fn read_block(reader: &mut Reader<'_>, rows: &[Attribute]) -> Result<Number, Reason>
    requires few { length rows.now ≤ 12 }
    requires starts { Starts reader.old }
    ensures lays { Lays reader.old reader.new result (read_block (order_of reader.old.order) reader.old.body.now (attributes_in rows.now) 0) }
    ensures flags { IfOk result (λ flags. FlagsRead (length rows.now) (run (order_of reader.old.order) reader.old.body.now (all_flags (attributes_in rows.now)) 0) (Ok flags)) }
{
    let flags = attributes::read_flags(reader.order, rows, reader.body)?;
    reader.place = flags.next;
    read_contents(reader, rows, flags.value)?;
    Ok(flags)
}
