// Bodies that are no attribute blocks, written: the constant rows of their items, walked by one writer; and font tables.
#![tactic(auto)]

ghost use Rattle.format.specs.Bodies.{font_tables};
ghost use Rattle.fixed.specs.Fixed.{in_order, fixed_of};
ghost use Rattle.spelling.specs.Writer.{Writes};

use items::Item;
use sink::Impossible;
use spelling::in_turn::{Text, write_all_anywhere};
use spelling::writer::Writer;

// The items of these rows, in order.
fn write_items(rows: &[Item], writer: &mut Writer) -> Result<(), Impossible>
    ensures { Writes writer.old writer.new result (in_order rows.now) }
{
    for kind in rows {
        writer.one(*kind)?;
    }
    Ok(())
}

// 1: a count, then two Strings each.
fn write_fonts(writer: &mut Writer) -> Result<(), Impossible>
    ensures { Writes writer.old writer.new result font_tables }
{
    let count = writer.count(0)?;
    write_all_anywhere(&Text, 2 * count, writer)
}

// The items of a tag that is no attribute block; of a container those before its list.
pub fn write_fixed(code: u32, writer: &mut Writer) -> Result<(), Impossible>
    ensures { Writes writer.old writer.new result (fixed_of code) }
{
    if code == 1 {
        return write_fonts(writer);
    }
    write_items(fixed::rows_of(code), writer)
}
