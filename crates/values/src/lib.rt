// The values of attributes, by their data type: one, or several in turn.
#![tactic(auto, using(crate::proofs::ReadingRules::reading))]

ghost use Rattle.std.specs.Prelude.{false, ◌≡◌, ◌≤◌};
ghost use Rattle.format.specs.Formats.{times, ◌▸◌};
ghost use Rattle.format.specs.Items.{path, gradient_color};
ghost use Rattle.format.specs.Bodies.{value as value_of, values as values_of, dashes};
ghost use Rattle.items.specs.Kinds.{format_of};
ghost use Rattle.table.specs.Readers.{Reads, Room};
ghost use Rattle.table.specs.Fields.{signed};
ghost use Rattle.attributes.specs.Rows.{kind_of, type_of};
ghost use Rattle.values.specs.Parts.{announcing, stop_of, offset_flag};
ghost use Rattle.values.specs.Single.{single_by, compound_of};

pub mod keyframes;

use attributes::{DataType, Kind, Layout};
use bits::Number;
use items::Item;
use reasons::Reason;
use table::fields::Field;
use table::{Part, Reader};

// Two items: a Ratio is an I32 and a U32, a Point two Floats.
fn read_pair(reader: &mut Reader<'_>, first: Item, second: Item) -> Result<(), Reason>
    requires { Room reader.old }
    ensures { Reads reader.old reader.new result (format_of first ▸ format_of second) }
{
    reader.item(first)?;
    second.read(reader)
}

// n fields of w bits, then a width and as many SB fields of it as they announce: a path's verbs and coordinates, spatial flags and their Points.
fn read_announcing(
    reader: &mut Reader<'_>,
    kind: Field,
    width: u64,
    count: usize,
) -> Result<(), Reason>
    requires { Room reader.old × (1 ≤ width) × (width ≤ 32) × (count ≤ 8192) × (signed kind ≡ false) }
    ensures { Reads reader.old reader.new result (announcing kind width count) }
{
    let announced = reader.fields(kind, width, count)?;
    reader.scaled(Field::Coordinate, announced)
}

// A Path: its verb count, its verbs and its coordinates.
fn read_path(reader: &mut Reader<'_>) -> Result<(), Reason>
    requires { Room reader.old }
    ensures { Reads reader.old reader.new result path }
{
    let count = reader.item(Item::Count(0))?;
    read_announcing(reader, Field::Verb, 3, count as usize)
}

// A stop of a gradient: position, midpoint, and its bytes, which are an opacity or a Color.
#[derive(Clone, Copy, Debug, PartialEq, Eq)]
struct Stop {
    bytes: usize,
}

impl Part for Stop {
    ghost format = { λ stop. stop_of stop.bytes };

    fn read(&self, reader: &mut Reader<'_>) -> Result<(), Reason> {
        read_pair(reader, Item::Uint16, Item::Uint16)?;
        reader.in_turn(&Item::Byte, self.bytes)
    }
}

// A GradientColor: both counts, the alpha stops, each with an opacity, and then the color stops, each with a Color.
fn read_gradient(reader: &mut Reader<'_>) -> Result<(), Reason>
    requires { Room reader.old }
    ensures { Reads reader.old reader.new result gradient_color }
{
    let alphas = reader.item(Item::Count(0))?;
    let colors = reader.item(Item::Count(0))?;
    reader.in_turn(&Stop { bytes: 1 }, alphas as usize)?;
    reader.in_turn(&Stop { bytes: 3 }, colors as usize)
}

// The flag of an offset of dashes: exist, and, if it is set, animatable.
fn read_offset_flag(reader: &mut Reader<'_>) -> Result<(), Reason>
    requires { Room reader.old }
    ensures { Reads reader.old reader.new result offset_flag }
{
    let exist = bits::fields::read_ub(reader.order, reader.body, reader.place, 1)?;
    reader.show(exist);
    reader.fields(Field::Plain, 1, exist.value as usize)?;
    Ok(())
}

// Dashes: from a whole byte on their length, shown plus 1, and the flag of their offset.
fn read_dashes(reader: &mut Reader<'_>) -> Result<(), Reason>
    requires { Room reader.old }
    ensures { Reads reader.old reader.new result dashes }
{
    reader.align()?;
    let length = bits::fields::read_ub(reader.order, reader.body, reader.place, 3)?;
    reader.show(Number {
        value: length.value + 1,
        ..length
    });
    read_offset_flag(reader)
}

// The item that a value of this data type is, if it is one. Said once, for the reader and the writer. A TagBlock has nothing here: its list stands behind the block.
pub fn single_of(what: DataType) -> Option<Item>
    ensures { result ≡ single_by what }
{
    match what {
        DataType::U32 => Some(Item::U32),
        DataType::Time => Some(Item::Time),
        DataType::Float => Some(Item::Float),
        DataType::Bool | DataType::EnumTo1 => Some(Item::Enum(1)),
        DataType::Byte => Some(Item::Byte),
        DataType::BlendMode => Some(Item::BlendMode),
        DataType::EnumTo2 => Some(Item::Enum(2)),
        DataType::EnumTo4 => Some(Item::Enum(4)),
        DataType::EnumTo6 => Some(Item::Enum(6)),
        DataType::EnumTo7 => Some(Item::Enum(7)),
        _ => None,
    }
}

// A value that is not keyframed and not one item. A TagBlock has nothing here, and one item is read by `read_value`.
#[derive(Clone, Copy, Debug, PartialEq, Eq)]
struct Compound {
    what: DataType,
}

impl Part for Compound {
    ghost format = { λ compound. compound_of compound.what };

    fn read(&self, reader: &mut Reader<'_>) -> Result<(), Reason> {
        match self.what {
            DataType::Ratio => read_pair(reader, Item::I32, Item::U32),
            DataType::Path => read_path(reader),
            DataType::Point => read_pair(reader, Item::Float, Item::Float),
            DataType::Color => reader.in_turn(&Item::Byte, 3),
            DataType::GradientColor => read_gradient(reader),
            DataType::Dashes => read_dashes(reader),
            _ => Ok(()),
        }
    }
}

// One value that is not keyframed.
pub fn read_value(reader: &mut Reader<'_>, what: DataType) -> Result<(), Reason>
    requires { Room reader.old }
    ensures { Reads reader.old reader.new result (value_of (type_of what)) }
{
    match single_of(what) {
        Some(kind) => kind.read(reader),
        None => Compound { what }.read(reader),
    }
}

// n values in turn: as many items, or one by one.
fn read_each(reader: &mut Reader<'_>, what: DataType, count: usize) -> Result<(), Reason>
    requires { Room reader.old }
    ensures { Reads reader.old reader.new result (times count (value_of (type_of what))) }
{
    match single_of(what) {
        Some(kind) => reader.in_turn(&kind, count),
        None => reader.in_turn(&Compound { what }, count),
    }
}

// n values in turn. Floats and Points are Floats, which are read at once.
fn read_in_turn(reader: &mut Reader<'_>, what: DataType, count: usize) -> Result<(), Reason>
    requires { Room reader.old × (count ≤ 4097) }
    ensures { Reads reader.old reader.new result (times count (value_of (type_of what))) }
{
    match what {
        DataType::Float => reader.floats(count),
        DataType::Point => reader.floats(count * 2),
        _ => read_each(reader, what, count),
    }
}

// n keyframed values: in turn; as one bit each; or as a width and fields of it, one for each byte and two for each Point.
fn read_frame_values(
    reader: &mut Reader<'_>,
    kind: Kind,
    what: DataType,
    count: usize,
) -> Result<(), Reason>
    requires { Room reader.old × (count ≤ 4097) }
    ensures { Reads reader.old reader.new result (values_of (kind_of kind) (type_of what) count) }
{
    match attributes::layout_of(kind, what) {
        Layout::InTurn => read_in_turn(reader, what, count),
        Layout::Bits => {
            reader.fields(Field::Plain, 1, count)?;
            Ok(())
        }
        Layout::ByteFields => reader.scaled(Field::ByteValue, count),
        Layout::PointFields => reader.scaled(Field::Plain, count * 2),
    }
}
