// Bodies that are no attribute blocks: their items as constant rows, walked by one reader; and font tables.
#![tactic(auto)]

ghost use Rattle.std.specs.Prelude.{◌≡◌, get_or};
ghost use Rattle.format.specs.Bodies.{font_tables};
ghost use Rattle.table.specs.Readers.{Reads, Room};
ghost use Rattle.fixed.specs.Fixed.{in_order, all_items, fixed_of, RowsOf};
ghost use Rattle.items.specs.declared.Item.TheVariants.{U32};

use items::Item;
use reasons::Reason;
use table::{Reader, Text};

// The items of all these bodies, one after the other.
const ITEMS: [Item; 18] = [
    // 2: id
    Item::U32,
    // 3: width, height, Time, Float, Color
    Item::I32,
    Item::I32,
    Item::Time,
    Item::Float,
    Item::Byte,
    Item::Byte,
    Item::Byte,
    // 5: type, id
    Item::Byte,
    Item::U32,
    // 7: Color, width, height
    Item::Byte,
    Item::Byte,
    Item::Byte,
    Item::I32,
    Item::I32,
    // 11: id
    Item::U32,
    // 12: id, Time
    Item::U32,
    Item::Time,
];

// The item in a row of all of them; past their end it is a U32.
pub fn item_at(row: usize) -> Item
    ensures { result ≡ get_or all_items row U32 }
{
    ITEMS.get(row).copied().unwrap_or(Item::U32)
}

// The rows of a code other than 1: those of a container stand before its list; a code that has no items has no rows.
pub fn rows_of(code: u32) -> &'static [Item]
    requires { code ≡ 1 → ⊥ }
    ensures { RowsOf code result.now }
{
    match code {
        2 => &ITEMS[..1],
        3 => &ITEMS[1..8],
        5 => &ITEMS[8..10],
        7 => &ITEMS[10..15],
        11 => &ITEMS[15..16],
        12 => &ITEMS[16..],
        _ => &[],
    }
}

// The items in these rows.
fn read_items(reader: &mut Reader<'_>, rows: &[Item]) -> Result<(), Reason>
    requires { Room reader.old }
    ensures { Reads reader.old reader.new result (in_order rows.now) }
{
    for &kind in rows {
        reader.item(kind)?;
    }
    Ok(())
}

// 1: a count, then two Strings each.
fn read_fonts(reader: &mut Reader<'_>) -> Result<(), Reason>
    requires { Room reader.old }
    ensures { Reads reader.old reader.new result font_tables }
{
    let count = reader.item(Item::Count(0))?;
    reader.in_turn(&Text, 2 * count as usize)
}

// The items of a tag that is no attribute block; of a container those before its list.
pub fn read_fixed(reader: &mut Reader<'_>, code: u32) -> Result<(), Reason>
    requires { Room reader.old }
    ensures { Reads reader.old reader.new result (fixed_of code) }
{
    if code == 1 {
        return read_fonts(reader);
    }
    read_items(reader, rows_of(code))
}
