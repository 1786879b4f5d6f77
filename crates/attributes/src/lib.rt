// The attributes of a block, their flags, and what their kinds and data types tell.
#![tactic(auto)]

ghost use Rattle.std.specs.Prelude.{◌≡◌, ◌+◌, ◌≤◌, ◌<◌, length};
ghost use Rattle.format.specs.Formats.{Item};
ghost use Rattle.format.specs.Items.{run};
ghost use Rattle.format.specs.Bodies.{flags_of, all_flags, dimensions as dimensions_of, curves as curves_of};
ghost use Rattle.bits.specs.Places.{PlaceIn, order_of};
ghost use Rattle.attributes.specs.Rows.{kind_of, type_of, attributes_in};
ghost use Rattle.attributes.specs.Flags.{FlagRead, FlagsRead};
ghost use Rattle.attributes.specs.Contents.{animatable_by, content_by, interpolated, points_by, layout_by};

pub mod blocks;

use bits::{BitPlace, Number, Order};
use reasons::Reason;

#[derive(Clone, Copy, Debug, PartialEq, Eq)]
pub enum Kind {
    Value,
    Fixed,
    BitFlag,
    Simple,
    Discrete,
    MultiDimension,
    Spatial,
    Custom,
}

// EnumTo4 goes from 0 to 4, and so the others.
#[derive(Clone, Copy, Debug, PartialEq, Eq)]
pub enum DataType {
    U32,
    Time,
    Float,
    Ratio,
    Bool,
    Byte,
    BlendMode,
    Path,
    Point,
    Color,
    GradientColor,
    EnumTo1,
    EnumTo2,
    EnumTo4,
    EnumTo6,
    EnumTo7,
    Dashes,
    TagBlock,
}

// What a row of a block says of an attribute (see `blocks`).
#[derive(Clone, Copy, Debug, PartialEq, Eq)]
pub struct Attribute {
    pub kind: Kind,
    pub data_type: DataType,
}

// The flag number of an attribute, and the place behind its bits. They are taken out of the first 40 bits of a body: a block has at most twelve attributes, with at
// most three bits each. A bit past the body is 0 there, so it is not taken for a set one, and the place behind tells that it is past the body.
#[derive(Clone, Copy, Debug, PartialEq, Eq)]
struct Flag {
    number: u64,
    behind: u64,
}

// Up to MOST bits: exist, animatable and hasSpatial. The first that is not set is the last, and each that is set adds a digit in base 2.
fn read_bits<const MOST: u64>(order: Order, first: u64, at: u64) -> Flag
    requires { (MOST ≤ 3) × (at + MOST ≤ 40) }
    ensures { FlagRead (order_of order) first (Item.flag MOST) at MOST result.number result.behind }
{
    let mut number = 0;
    for step in 0..MOST {
        let place = at + step;
        if bits::fields::bit_of(order, first, place) == 0 {
            return Flag {
                number,
                behind: place + 1,
            };
        }
        number = 2 * number + 1;
    }
    Flag {
        number,
        behind: at + MOST,
    }
}

// The flags of one attribute as a number: exist + 2 × animatable + 4 × hasSpatial; a Fixed one has no bit, and gives 1.
fn read_flag(order: Order, kind: Kind, first: u64, at: u64) -> Flag
    requires { at + 2 < 40 }
    ensures { FlagRead (order_of order) first (flags_of (kind_of kind)) at 3 result.number result.behind }
{
    match kind {
        Kind::Value | Kind::BitFlag | Kind::Custom => read_bits::<1>(order, first, at),
        Kind::Fixed => Flag {
            number: 1,
            behind: at,
        },
        Kind::Simple | Kind::Discrete | Kind::MultiDimension => read_bits::<2>(order, first, at),
        Kind::Spatial => read_bits::<3>(order, first, at),
    }
}

// The flags of the attributes in these rows, in order; they stand at the start of the body of a block. Their numbers are handed on as the digits of one number in
// base 8, the first attribute's lowest.
pub fn read_flags(order: Order, rows: &[Attribute], body: &[u8]) -> Result<Number, Reason>
    requires { (length rows.now ≤ 12) × PlaceIn body.now 0 }
    ensures { FlagsRead (length rows.now) (run (order_of order) body.now (all_flags (attributes_in rows.now)) 0) result }
{
    // The same bytes: sliced again they are handed on in registers, and not through memory (docs/SPEED.md).
    let bytes = &body[..];
    let first = bits::fields::first_bits(order, bytes);
    let end = (bytes.len() * 8) as u64;
    let mut place = 0;
    let mut numbers = 0;
    let mut unit = 1u64;
    for row in rows {
        let flag = read_flag(order, row.kind, first, place);
        let behind = flag.behind;
        if end < behind {
            return Err(Reason::ItemPastTheBody);
        }
        numbers += flag.number * unit;
        unit *= 8;
        place = behind;
    }
    Ok(Number {
        value: numbers,
        next: BitPlace(place as usize),
    })
}

// What a block has of an attribute besides its flags: nothing, one value, or keyframes.
#[derive(Clone, Copy, Debug, PartialEq, Eq)]
pub enum Content {
    Nothing,
    One,
    Frames,
}

// Of one that may be keyframed: by its flags.
fn animatable(flag: u64) -> Content
    ensures { result ≡ animatable_by flag }
{
    match flag {
        0 => Content::Nothing,
        1 => Content::One,
        _ => Content::Frames,
    }
}

// Where no flag is set, or could be: of a Fixed one there is a value.
fn content_without(kind: Kind) -> Content
    ensures { result ≡ content_by (kind_of kind) 0 }
{
    match kind {
        Kind::Fixed => Content::One,
        _ => Content::Nothing,
    }
}

// By its flag number: a Value or a Custom one has one if its bit is set, a Fixed always, a BitFlag never.
pub fn content_of(kind: Kind, flag: u64) -> Content
    ensures { result ≡ content_by (kind_of kind) flag }
{
    if flag == 0 {
        return content_without(kind);
    }
    match kind {
        Kind::Value | Kind::Fixed | Kind::Custom => Content::One,
        Kind::BitFlag => Content::Nothing,
        Kind::Simple | Kind::Discrete | Kind::MultiDimension | Kind::Spatial => animatable(flag),
    }
}

// Do frames of an attribute of this kind have an interpolation? Those of a Discrete one have none, and the others are never keyframed.
pub fn has_interpolations(kind: Kind) -> bool
    ensures { result ≡ interpolated (kind_of kind) }
{
    matches!(kind, Kind::Simple | Kind::MultiDimension | Kind::Spatial)
}

// How keyframed values stand: in turn; as one bit each; as fields of a width, which are bytes or the x and y of Points.
#[derive(Clone, Copy, Debug, PartialEq, Eq)]
pub enum Layout {
    InTurn,
    Bits,
    ByteFields,
    PointFields,
}

// Points in turn, but for those of a Spatial attribute.
fn points_layout(kind: Kind) -> Layout
    ensures { result ≡ points_by (kind_of kind) }
{
    match kind {
        Kind::Spatial => Layout::PointFields,
        _ => Layout::InTurn,
    }
}

// The layout of keyframed values, by kind and data type.
pub fn layout_of(kind: Kind, what: DataType) -> Layout
    ensures { result ≡ layout_by (kind_of kind) (type_of what) }
{
    match what {
        DataType::Bool => Layout::Bits,
        DataType::Byte => Layout::ByteFields,
        DataType::Point => points_layout(kind),
        _ => Layout::InTurn,
    }
}

// The dimensions of a value.
fn dimensions(what: DataType) -> usize
    ensures { (result ≡ dimensions_of (type_of what)) × (result ≤ 2) }
{
    match what {
        DataType::Point => 2,
        _ => 1,
    }
}

// The easing curves of a Bezier frame: of a MultiDimension attribute one for each dimension, else one.
pub fn curves(kind: Kind, what: DataType) -> usize
    ensures { (result ≡ curves_of (kind_of kind) (type_of what)) × (result ≤ 2) }
{
    match kind {
        Kind::MultiDimension => dimensions(what),
        _ => 1,
    }
}
