// The body of a tag, written from its values: of a leaf, or what stands before a container's list.
#![tactic(auto)]

ghost use Rattle.std.specs.Prelude.{◌≡◌, ◌*◌, ◌≤◌};
ghost use Rattle.format.specs.Bodies.{fixed};
ghost use Rattle.format.specs.WritingBodies.{write_body};
ghost use Rattle.bits.specs.Places.{order_of};
ghost use Rattle.fixed.specs.Fixed.{fixed_of};
ghost use Rattle.bodies.specs.Leaf.{leaf_body};
ghost use Rattle.sink.specs.Lain.{lies, lain_as};
ghost use Rattle.spelling.specs.Writer.{Onward};

use bits::{BytePlace, Order};
use sink::Impossible;
use spelling::writer::Writer;

// A body that is no attribute block, by a writer that stands at its place.
fn write_at(code: u32, writer: &mut Writer, at: BytePlace) -> Result<BytePlace, Impossible>
    requires { (writer.old.index ≡ 0) × (writer.old.sink.place.0 ≡ 8 * at.0) × (writer.old.sink.part ≡ 0) }
    ensures onward { Onward writer.old writer.new }
    ensures lain { lain_as writer.new.out.now result ≡ lies writer.old.out.now at.0 (write_body (order_of writer.old.order) (fixed (fixed_of code)) writer.old.values.now) }
{
    write_fixed::write_fixed(code, writer)?;
    writer.conclude(writer.values.len())
}

// A body that is no attribute block, from a byte place on. No file is longer than 16,777,216 bytes.
pub fn write_items(
    order: Order,
    code: u32,
    values: &[u64],
    out: &mut [u8],
    at: BytePlace,
) -> Result<BytePlace, Impossible>
    requires { at.0 ≤ 16777218 }
    ensures { lain_as out.new result ≡ lies out.old at.0 (write_body (order_of order) (fixed (fixed_of code)) values.now) }
{
    if 16777216 < at.0 {
        return Err(Impossible);
    }
    let sink = spelling::on_byte(at.0);
    let mut writer = Writer {
        order,
        out,
        sink,
        values,
        index: 0,
    };
    write_at(code, &mut writer, at)
}

// The body of a leaf tag, from a byte place on.
pub fn write_body(
    order: Order,
    code: u32,
    values: &[u64],
    out: &mut [u8],
    at: BytePlace,
) -> Result<BytePlace, Impossible>
    requires { at.0 ≤ 16777218 }
    ensures { lain_as out.new result ≡ lies out.old at.0 (write_body (order_of order) (leaf_body code) values.now) }
{
    if bodies::is_block(code) {
        let rows = attributes::blocks::block_of(code);
        return write_blocks::write_block(order, rows, values, out, at);
    }
    write_items(order, code, values, out, at)
}

// The own part of a container, which is mostly no block: up to its list it ends on a whole byte, as a body does.
// Stays: the same as `write_body`, but apart, so that it does not pay for the memory of a block, and no depth of lists has it on the stack.
pub fn write_plain(
    order: Order,
    code: u32,
    values: &[u64],
    out: &mut [u8],
    at: BytePlace,
) -> Result<BytePlace, Impossible>
    requires { at.0 ≤ 16777218 }
    ensures { lain_as out.new result ≡ lies out.old at.0 (write_body (order_of order) (leaf_body code) values.now) }
{
    if bodies::is_block(code) {
        return write_body(order, code, values, out, at);
    }
    write_items(order, code, values, out, at)
}
