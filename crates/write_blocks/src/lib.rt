// Attribute blocks, written: the contents first, one byte after the block's place, and then the flags of all attributes before them. In the values
// each attribute's flag number stands before its content: so one walk over them finds both, and no content is measured before it is written.
#![tactic(auto)]

ghost use Rattle.std.specs.Prelude.{◌≡◌, ◌+◌, ◌-◌, ◌*◌, ◌^◌, ◌≤◌, ◌<◌, IfOk};
ghost use Rattle.format.specs.WritingItems.{before, spell_flag};
ghost use Rattle.format.specs.Bodies.{content as content_of, attributes as attributes_body};
ghost use Rattle.format.specs.WritingBodies.{write_body};
ghost use Rattle.format.specs.Bodies.{Fixed};
ghost use Rattle.bits.specs.Places.{InEither, order_of};
ghost use Rattle.attributes.specs.Rows.{kind_of, attribute_of, attributes_in};
ghost use Rattle.sink.specs.Lain.{lies, lain_as, longest};
ghost use Rattle.spelling.specs.Writer.{state, Onward, Writes};
ghost use Rattle.write_blocks.specs.Flags.{bits_of, noted, Grown, Longer, flag_spelling, flag_bytes, most_bits, HasFlags};
ghost use Rattle.write_blocks.specs.Filling.{filled, fills, under_flags};

pub mod field;

pub use crate::field::Flags;
use attributes::{Attribute, Content, Kind};
use bits::{BytePlace, Order};
use sink::{Impossible, Sink};
use spelling::writer::Writer;

impl Flags {
    // So many bits more, as a field, behind those that were gathered.
    fn with_bits(self, order: Order, more: u64, count: usize) -> Flags
        requires { (self.width ≤ 33) × (count ≤ 2) × (more < 2 ^ count) }
        ensures { Longer (order_of order) self count more result }
    {
        Flags {
            bits: sink::glue(order, self.bits, self.width, more, count),
            width: self.width + count,
        }
    }

    // One flag bit.
    fn with_flag(self, order: Order, number: u64) -> Result<Flags, Impossible>
        requires { self.width ≤ 32 }
        ensures { (noted (order_of order) result ≡ before (bits_of (order_of order) self) (spell_flag (order_of order) number 1)) × Grown 1 self.width result }
    {
        if 1 < number {
            return Err(Impossible);
        }
        Ok(self.with_bits(order, number, 1))
    }

    // An exist bit; if set, an animatable bit.
    fn with_two_flags(self, order: Order, number: u64) -> Result<Flags, Impossible>
        requires { self.width ≤ 33 }
        ensures { (noted (order_of order) result ≡ before (bits_of (order_of order) self) (spell_flag (order_of order) number 2)) × Grown 2 self.width result }
    {
        match number {
            0 => Ok(self.with_bits(order, 0, 1)),
            1 => {
                let still = sink::glue(order, 1, 1, 0, 1);
                Ok(self.with_bits(order, still, 2))
            }
            3 => {
                let moving = sink::glue(order, 1, 1, 1, 1);
                Ok(self.with_bits(order, moving, 2))
            }
            _ => Err(Impossible),
        }
    }

    // An exist bit; if set, an animatable bit; if that is set too, a hasSpatial bit.
    fn with_three_flags(self, order: Order, number: u64) -> Result<Flags, Impossible>
        requires { self.width ≤ 32 }
        ensures { (noted (order_of order) result ≡ before (bits_of (order_of order) self) (spell_flag (order_of order) number 3)) × Grown 3 self.width result }
    {
        if number == 0 {
            return Ok(self.with_bits(order, 0, 1));
        }
        if number % 2 == 0 {
            return Err(Impossible);
        }
        let there = self.with_bits(order, 1, 1);
        there.with_two_flags(order, number / 2)
    }

    // No bit: a Fixed attribute's flag number is 1.
    fn with_none(self, number: u64) -> Result<Flags, Impossible>
        ensures fixed { InEither (λ o. noted o result ≡ before (bits_of o self) (flag_spelling o Fixed number)) }
        ensures grown { Grown 0 self.width result }
    {
        let fixed = number == 1;
        if fixed { Ok(self) } else { Err(Impossible) }
    }

    // The flags of one attribute more.
    fn with_kind(self, order: Order, kind: Kind, number: u64) -> Result<Flags, Impossible>
        requires { self.width ≤ 32 }
        ensures { (noted (order_of order) result ≡ before (bits_of (order_of order) self) (flag_spelling (order_of order) (kind_of kind) number)) × Grown (most_bits (kind_of kind)) self.width result }
    {
        match kind {
            Kind::Value | Kind::BitFlag => self.with_flag(order, number),
            Kind::Fixed => self.with_none(number),
            Kind::Simple | Kind::Discrete | Kind::MultiDimension => self.with_two_flags(
                order, number,
            ),
            Kind::Spatial => self.with_three_flags(order, number),
            Kind::Custom => self.with_flag(order, number),
        }
    }
}

// The content of the attribute in a row, by its flag number.
fn write_content(row: Attribute, flag: u64, writer: &mut Writer) -> Result<(), Impossible>
    ensures { Writes writer.old writer.new result (content_of (attribute_of row) flag) }
{
    let kind = row.kind;
    let what = row.data_type;
    match attributes::content_of(kind, flag) {
        Content::Nothing => Ok(()),
        Content::One => write_values::write_value(what, writer),
        Content::Frames => write_values::keyframes::write_keyframed(kind, what, flag, writer),
    }
}

// The contents of all rows; their flags are gathered on the way.
fn write_contents(rows: &[Attribute], writer: &mut Writer) -> Result<Flags, Impossible>
    requires { HasFlags (attributes_in rows.now) × (writer.old.index ≡ 0) }
    ensures onward { Onward writer.old writer.new }
    ensures fills { filled (order_of writer.old.order) writer.new result ≡ fills (order_of writer.old.order) (attributes_in rows.now) writer.old.values.now (state writer.old) }
    ensures few { IfOk result (λ flags. flags.width ≤ 32) }
{
    let order = writer.order;
    let mut flags = Flags { bits: 0, width: 0 };
    for row in rows {
        let number = writer.take()?;
        flags = flags.with_kind(order, row.kind, number)?;
        write_content(*row, number, writer)?;
    }
    Ok(flags)
}

// Puts flags before contents that stand one byte after a place, up to stop; where the flags take more than that byte, the contents move up.
fn put_flags(
    flags: Flags,
    writer: &mut Writer,
    at: BytePlace,
    stop: BytePlace,
) -> Result<BytePlace, Impossible>
    requires { (0 < flags.width) × (flags.width ≤ 32) × (at.0 + 1 ≤ stop.0) × (stop.0 ≤ longest) }
    ensures onward { Onward writer.old writer.new }
    ensures lain { lain_as writer.new.out.now result ≡ under_flags writer.old.out.now at.0 (flag_bytes (order_of writer.old.order) (bits_of (order_of writer.old.order) flags)) (stop.0 - (at.0 + 1)) }
{
    let width = flags.width;
    let from = at.0 + 1;
    let more = (width + 7) / 8 - 1;
    let end = stop.0 + more;
    if 16777216 < end {
        return Err(Impossible);
    }
    write_heads::move_up(writer.out, BytePlace(from), stop.0 - from, more);
    let order = writer.order;
    let place = bits::first_bit(at);
    let sink = Sink { place, part: 0 };
    let next = sink::put_bits(order, writer.out, sink, flags.bits, width);
    sink::align(order, writer.out, next);
    Ok(BytePlace(end))
}

// An attribute block, by a writer that stands one byte after its place.
fn write_at(rows: &[Attribute], writer: &mut Writer, at: BytePlace) -> Result<BytePlace, Impossible>
    requires flags { HasFlags (attributes_in rows.now) }
    requires first { (writer.old.index ≡ 0) × (writer.old.sink.place.0 ≡ 8 * (at.0 + 1)) × (writer.old.sink.part ≡ 0) }
    ensures onward { Onward writer.old writer.new }
    ensures lain { lain_as writer.new.out.now result ≡ lies writer.old.out.now at.0 (write_body (order_of writer.old.order) (attributes_body (attributes_in rows.now)) writer.old.values.now) }
{
    let flags = write_contents(rows, writer)?;
    let stop = writer.conclude(writer.values.len())?;
    put_flags(flags, writer, at, stop)
}

// An attribute block, from a byte place on; one that has flags. No file is longer than 16,777,216 bytes.
pub fn write_block(
    order: Order,
    rows: &[Attribute],
    values: &[u64],
    out: &mut [u8],
    at: BytePlace,
) -> Result<BytePlace, Impossible>
    requires { HasFlags (attributes_in rows.now) }
    ensures { lain_as out.new result ≡ lies out.old at.0 (write_body (order_of order) (attributes_body (attributes_in rows.now)) values.now) }
{
    if 16777216 <= at.0 {
        return Err(Impossible);
    }
    let sink = spelling::on_byte(at.0 + 1);
    let mut writer = Writer {
        order,
        out,
        sink,
        values,
        index: 0,
    };
    write_at(rows, &mut writer, at)
}
