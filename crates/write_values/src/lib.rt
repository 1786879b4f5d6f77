// The values of attributes, written by their data type: one, or several in turn.
#![tactic(auto)]

ghost use Rattle.std.specs.Prelude.{◌≤◌, ◌<◌};
ghost use Rattle.format.specs.Formats.{item, Item as ItemOf, times, ◌▸◌};
ghost use Rattle.format.specs.Items.{path, gradient_color};
ghost use Rattle.format.specs.Bodies.{value as value_of, values as values_of, dashes};
ghost use Rattle.items.specs.Kinds.{format_of};
ghost use Rattle.attributes.specs.Rows.{kind_of, type_of};
ghost use Rattle.values.specs.Parts.{announcing, stop_of, stops_of, after_alphas, offset_flag};
ghost use Rattle.values.specs.Single.{compound_of};
ghost use Rattle.spelling.specs.Writer.{Writes, Counts};

pub mod keyframes;

use attributes::{DataType, Kind, Layout};
use items::Item;
use sink::Impossible;
use spelling::in_turn::{PartAnywhere, write_all_anywhere};
use spelling::writer::Writer;
use table::fields::Field;
use values::single_of;

// Two items: a Ratio is an I32 and a U32, a Point two Floats.
fn write_pair(first: Item, second: Item, writer: &mut Writer) -> Result<(), Impossible>
    ensures { Writes writer.old writer.new result (format_of first ▸ format_of second) }
{
    writer.one(first)?;
    writer.one(second)
}

// n fields of w bits, then a width and as many SB fields of it as they announce: a path's verbs and coordinates, spatial flags and their Points.
fn write_announcing(
    kind: Field,
    width: usize,
    count: usize,
    writer: &mut Writer,
) -> Result<(), Impossible>
    requires { (1 ≤ width) × (width ≤ 32) × (count ≤ 8192) }
    ensures { Writes writer.old writer.new result (announcing kind width count) }
{
    let announced = writer.fields(kind, width, count)?;
    writer.scaled(Field::Coordinate, announced)
}

// A Path: its verb count, its verbs and its coordinates.
fn write_path(writer: &mut Writer) -> Result<(), Impossible>
    ensures { Writes writer.old writer.new result path }
{
    let count = writer.count(0)?;
    write_announcing(Field::Verb, 3, count, writer)
}

// A stop of a gradient: position, midpoint, and its bytes, which are an opacity or a Color.
#[derive(Clone, Copy)]
struct Stop {
    bytes: usize,
}

impl PartAnywhere for Stop {
    ghost format = { λ stop. stop_of stop.bytes };

    fn write_anywhere(&self, writer: &mut Writer) -> Result<(), Impossible> {
        write_pair(Item::Uint16, Item::Uint16, writer)?;
        writer.items(Item::Byte, self.bytes)
    }
}

// The alpha stops of a gradient, each with an opacity, and then its color stops, each with a Color.
fn write_both_stops(alphas: usize, colors: usize, writer: &mut Writer) -> Result<(), Impossible>
    ensures { Writes writer.old writer.new result (stops_of alphas colors) }
{
    write_all_anywhere(&Stop { bytes: 1 }, alphas, writer)?;
    write_all_anywhere(&Stop { bytes: 3 }, colors, writer)
}

// What follows the count of alpha stops: the count of color stops, and the stops.
fn write_after_alphas(alphas: usize, writer: &mut Writer) -> Result<(), Impossible>
    ensures { Writes writer.old writer.new result (after_alphas alphas) }
{
    let colors = writer.count(0)?;
    write_both_stops(alphas, colors, writer)
}

// A GradientColor: both counts, and the stops.
fn write_gradient(writer: &mut Writer) -> Result<(), Impossible>
    ensures { Writes writer.old writer.new result gradient_color }
{
    let alphas = writer.count(0)?;
    write_after_alphas(alphas, writer)
}

// One bit, which is the answer.
fn write_bit(writer: &mut Writer) -> Result<usize, Impossible>
    ensures writes { Writes writer.old writer.new result (item (ItemOf.UB 1)) }
    ensures counts { Counts 0 1 writer.old writer.new result }
{
    let values = writer.values;
    let index = writer.index;
    writer.fields(Field::Plain, 1, 1)?;
    Ok(values[index] as usize)
}

// The flag of an offset of dashes: exist, and, if it is set, animatable.
fn write_offset_flag(writer: &mut Writer) -> Result<(), Impossible>
    ensures { Writes writer.old writer.new result offset_flag }
{
    let exist = write_bit(writer)?;
    writer.fields(Field::Plain, 1, exist)?;
    Ok(())
}

// Dashes: from a whole byte on their length, and the flag of their offset.
fn write_dashes(writer: &mut Writer) -> Result<(), Impossible>
    ensures { Writes writer.old writer.new result dashes }
{
    writer.skip();
    writer.dash_length()?;
    write_offset_flag(writer)
}

// One value that is not keyframed and not one item. A TagBlock has nothing here, and one item is written by `write_value`.
#[derive(Clone, Copy)]
struct Compound {
    what: DataType,
}

impl PartAnywhere for Compound {
    ghost format = { λ value. compound_of value.what };

    fn write_anywhere(&self, writer: &mut Writer) -> Result<(), Impossible> {
        match self.what {
            DataType::Ratio => write_pair(Item::I32, Item::U32, writer),
            DataType::Path => write_path(writer),
            DataType::Point => write_pair(Item::Float, Item::Float, writer),
            DataType::Color => writer.items(Item::Byte, 3),
            DataType::GradientColor => write_gradient(writer),
            DataType::Dashes => write_dashes(writer),
            _ => Ok(()),
        }
    }
}

// One value that is not keyframed.
pub fn write_value(what: DataType, writer: &mut Writer) -> Result<(), Impossible>
    ensures { Writes writer.old writer.new result (value_of (type_of what)) }
{
    match single_of(what) {
        Some(kind) => writer.one(kind),
        None => Compound { what }.write_anywhere(writer),
    }
}

// n values in turn: as many items, or one by one.
fn write_each(what: DataType, count: usize, writer: &mut Writer) -> Result<(), Impossible>
    ensures { Writes writer.old writer.new result (times count (value_of (type_of what))) }
{
    match single_of(what) {
        Some(kind) => writer.items(kind, count),
        None => write_all_anywhere(&Compound { what }, count, writer),
    }
}

// n values in turn. Points are Floats.
fn write_in_turn(what: DataType, count: usize, writer: &mut Writer) -> Result<(), Impossible>
    requires { count ≤ 4097 }
    ensures { Writes writer.old writer.new result (times count (value_of (type_of what))) }
{
    match what {
        DataType::Point => writer.items(Item::Float, count * 2),
        _ => write_each(what, count, writer),
    }
}

// n keyframed values: in turn; as one bit each; or as a width and fields of it, one for each byte and two for each Point.
fn write_frame_values(
    kind: Kind,
    what: DataType,
    count: usize,
    writer: &mut Writer,
) -> Result<(), Impossible>
    requires { count ≤ 4097 }
    ensures { Writes writer.old writer.new result (values_of (kind_of kind) (type_of what) count) }
{
    match attributes::layout_of(kind, what) {
        Layout::InTurn => write_in_turn(what, count, writer),
        Layout::Bits => {
            writer.fields(Field::Plain, 1, count)?;
            Ok(())
        }
        Layout::ByteFields => writer.scaled(Field::ByteValue, count),
        Layout::PointFields => writer.scaled(Field::Plain, count * 2),
    }
}
