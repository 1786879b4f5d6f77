// The body of a tag that is read: its values into the lent table, and its end.
#![tactic(auto)]

ghost use Rattle.std.specs.Prelude.{◌≡◌, ◌*◌, length, IfOk};
ghost use Rattle.format.specs.Items.{read_align};
ghost use Rattle.format.specs.Bodies.{read_part, read_body, used_up};
ghost use Rattle.bits.specs.Places.{order_of};
ghost use Rattle.bodies.specs.Leaf.{is_block, body_by, leaf_body, group, container_body, has_list_in, own_part};
ghost use Rattle.bodies.specs.Shown.{Starts, Lays, Shows};

pub mod blocks;

use bits::BytePlace;
use reasons::Reason;
use table::Reader;

// Is the code one of an attribute block?
pub fn is_block(code: u32) -> bool
    ensures { result ≡ is_block code }
{
    matches!(code, 6 | 9 | 10 | 13..=27)
}

// The items of a body, up to where they end: those of an attribute block, or of another body.
fn read_part(reader: &mut Reader<'_>, block: bool, code: u32) -> Result<(), Reason>
    requires { Starts reader.old }
    ensures { Lays reader.old reader.new result (read_part (order_of reader.old.order) reader.old.body.now (body_by block code) 0) }
{
    if !block {
        return fixed::read_fixed(reader, code);
    }
    blocks::read_block(reader, attributes::blocks::block_of(code))?;
    Ok(())
}

// Zero bits up to the next whole byte (15), which is told.
fn to_byte(reader: &mut Reader<'_>) -> Result<BytePlace, Reason>
    ensures lays { Lays reader.old reader.new result (read_align (order_of reader.old.order) reader.old.body.now reader.old.place.0) }
    ensures byte { IfOk result (λ byte. reader.new.place.0 ≡ 8 * byte.0) }
{
    let start = bits::align(reader.order, reader.body, reader.place)?;
    reader.place = start.bit;
    Ok(start.byte)
}

// After the items of a body: zero bits up to a whole byte (15), and nothing more (18).
fn end_body(reader: &mut Reader<'_>) -> Result<(), Reason>
    ensures lays { Lays reader.old reader.new result (used_up (8 * length reader.old.body.now) (read_align (order_of reader.old.order) reader.old.body.now reader.old.place.0).shown (read_align (order_of reader.old.order) reader.old.body.now reader.old.place.0).ended) }
    ensures byte { IfOk result (λ _. reader.new.place.0 ≡ 8 * length reader.new.body.now) }
{
    let end = to_byte(reader)?;
    if end.0 == reader.body.len() {
        Ok(())
    } else {
        Err(Reason::BodyNotUsedUp)
    }
}

// The body of a leaf tag, an attribute block or another: its items, zero bits up to a whole byte (15), and nothing more (18).
pub fn read_leaf(reader: &mut Reader<'_>, block: bool, code: u32) -> Result<(), Reason>
    requires { Starts reader.old }
    ensures lays { Lays reader.old reader.new result (read_body (order_of reader.old.order) (body_by block code) reader.old.body.now) }
    ensures byte { IfOk result (λ _. reader.new.place.0 ≡ 8 * length reader.new.body.now) }
{
    read_part(reader, block, code)?;
    end_body(reader)
}

// The same, by its code alone.
pub fn read_body(reader: &mut Reader<'_>, code: u32) -> Result<(), Reason>
    requires { Starts reader.old }
    ensures lays { Lays reader.old reader.new result (read_body (order_of reader.old.order) (leaf_body code) reader.old.body.now) }
    ensures byte { IfOk result (λ _. reader.new.place.0 ≡ 8 * length reader.new.body.now) }
{
    read_leaf(reader, is_block(code), code)
}

// A ShapeGroup: it has a list where the flag of its last attribute, the TagBlock, is set: digit 8 of its flag numbers. The walk that counts stores no values, so the
// flag is taken from those.
fn read_group(reader: &mut Reader<'_>) -> Result<Option<BytePlace>, Reason>
    requires { Starts reader.old }
    ensures { Shows reader.old reader.new result (own_part (order_of reader.old.order) group reader.old.body.now) (has_list_in (order_of reader.old.order) group reader.old.body.now) }
{
    let flags = blocks::read_block(reader, attributes::blocks::block_of(15))?;
    if flags.value / 16777216 % 8 == 1 {
        let list = to_byte(reader)?;
        return Ok(Some(list));
    }
    end_body(reader)?;
    Ok(None)
}

// The own part of a container: its items, and zero bits up to the whole byte where its list starts (15). A group without a list ends like a leaf.
pub fn read_container(reader: &mut Reader<'_>, code: u32) -> Result<Option<BytePlace>, Reason>
    requires { Starts reader.old }
    ensures { Shows reader.old reader.new result (own_part (order_of reader.old.order) (container_body code) reader.old.body.now) (has_list_in (order_of reader.old.order) (container_body code) reader.old.body.now) }
{
    if code == 15 {
        return read_group(reader);
    }
    read_part(reader, false, code)?;
    let list = to_byte(reader)?;
    Ok(Some(list))
}
