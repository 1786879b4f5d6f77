// The items that show one number: each starts on a whole byte.
#![tactic(auto)]

ghost use Rattle.std.specs.Prelude.{◌≡◌, ◌+◌, ◌*◌, ◌^◌, ◌<◌, ◌≤◌, length};
ghost use Rattle.format.specs.Items.{num, show_num, run, read_le, read_ub};
ghost use Rattle.bits.specs.Places.{PlaceIn, num_of, order_of, InEither};
ghost use Rattle.items.specs.Kinds.{format_of, spelt, between as within, range_fault, by_bits};
ghost use Rattle.reasons.specs.Numbers.{fault_of};
ghost use Rattle.items.specs.declared.Item.TheVariants.{Time};

mod var;

use bits::{BitPlace, Number, Order, Whole};
use reasons::Reason;

// An Enum goes from 0 to its top, a Count from its least to 4,096. Each is one byte, so that a kind is two: counted, it is handed on in a register so.
#[derive(Clone, Copy, Debug, PartialEq, Eq)]
pub enum Item {
    U32,
    I32,
    Time,
    Float,
    Uint16,
    Byte,
    Enum(u8),
    BlendMode,
    Count(u8),
}

// A number and the whole byte behind it.
#[derive(Clone, Copy, Debug, PartialEq, Eq)]
pub struct Spelled {
    pub value: u64,
    pub next: Whole,
}

// A number that takes so many bits from a whole byte on.
fn number(value: u64, at: Whole, bits: usize) -> Number
    requires { at.bit.0 + bits < 2 ^ 64 }
    ensures { (result.value ≡ value) × (result.next.0 ≡ at.bit.0 + bits) }
{
    Number {
        value,
        next: BitPlace(at.bit.0 + bits),
    }
}

// One byte. Whole bytes are the same in either order.
fn read_byte(body: &[u8], at: Whole) -> Result<Number, Reason>
    requires { PlaceIn body.now at.bit.0 }
    ensures { InEither (λ o. num_of result ≡ read_ub o body.now at.bit.0 8) }
{
    let i = at.byte.0;
    if body.len() <= i {
        return Err(Reason::ItemPastTheBody);
    }
    Ok(number(bits::byte_at(body, i), at, 8))
}

// Four bytes, lowest first, as one number.
pub fn float_at(body: &[u8], i: usize) -> u64
    requires { (i + 4 ≤ length body.now) × (length body.now < 2 ^ 60) }
    ensures { InEither (λ o. num result (8 * i + 32) ≡ read_le o body.now (8 * i) 4) }
{
    let b0 = bits::byte_at(body, i);
    let b1 = bits::byte_at(body, i + 1);
    let b2 = bits::byte_at(body, i + 2);
    let b3 = bits::byte_at(body, i + 3);
    b0 + 256 * (b1 + 256 * (b2 + 256 * b3))
}

// A Float: four bytes, kept as their pattern.
fn read_float(body: &[u8], at: Whole) -> Result<Number, Reason>
    requires { PlaceIn body.now at.bit.0 }
    ensures { InEither (λ o. num_of result ≡ read_le o body.now at.bit.0 4) }
{
    let i = at.byte.0;
    if body.len() - i < 4 {
        return Err(Reason::ItemPastTheBody);
    }
    Ok(number(float_at(body, i), at, 32))
}

// Two bytes, lowest first.
fn read_uint16(body: &[u8], at: Whole) -> Result<Number, Reason>
    requires { PlaceIn body.now at.bit.0 }
    ensures { InEither (λ o. num_of result ≡ read_le o body.now at.bit.0 2) }
{
    let i = at.byte.0;
    if body.len() - i < 2 {
        return Err(Reason::ItemPastTheBody);
    }
    let b0 = bits::byte_at(body, i);
    let b1 = bits::byte_at(body, i + 1);
    Ok(number(b0 + 256 * b1, at, 16))
}

// An item's bytes (13) and their spelling (14), from a whole byte on.
fn read_spelling(kind: Item, body: &[u8], at: Whole) -> Result<Number, Reason>
    requires { PlaceIn body.now at.bit.0 }
    ensures { InEither (λ o. num_of result ≡ spelt o kind body.now at.bit.0) }
{
    match kind {
        Item::U32 | Item::Count(_) => var::read_u32(body, at),
        Item::I32 => var::read_i32(body, at),
        Item::Time => var::read_u64(body, at),
        Item::Float => read_float(body, at),
        Item::Uint16 => read_uint16(body, at),
        Item::Byte | Item::Enum(_) | Item::BlendMode => read_byte(body, at),
    }
}

// Is v from a to z?
fn between(least: u64, value: u64, most: u64) -> bool
    ensures { result ≡ within least value most }
{
    least <= value && value <= most
}

// Is the number in the range of its kind? An enum's others are unlisted (16); a count's are outside its range (17).
pub fn in_range(kind: Item, value: u64) -> Result<(), Reason>
    ensures { fault_of result ≡ range_fault kind value }
{
    match kind {
        Item::Enum(top) => if value <= u64::from(top) {
            Ok(())
        } else {
            Err(Reason::UnlistedValue)
        },
        Item::BlendMode => if value <= 16 {
            Ok(())
        } else if between(21, value, 26) {
            Ok(())
        } else {
            Err(Reason::UnlistedValue)
        },
        Item::Count(least) => if between(u64::from(least), value, 4096) {
            Ok(())
        } else {
            Err(Reason::CountOutsideItsRange)
        },
        Item::U32 | Item::I32 | Item::Time | Item::Float | Item::Uint16 | Item::Byte => Ok(()),
    }
}

// An item: skipped bits (15), its bytes (13), its spelling (14), its range (16, 17).
pub fn read_item(order: Order, kind: Item, body: &[u8], at: BitPlace) -> Result<Number, Reason>
    requires { PlaceIn body.now at.0 }
    ensures { show_num (num_of result) ≡ run (order_of order) body.now (format_of kind) at.0 }
{
    let start = bits::align(order, body, at)?;
    let number = read_spelling(kind, body, start)?;
    in_range(kind, number.value)?;
    Ok(number)
}

// A Time from a whole byte on, for many of them in turn: nothing asks for its kind. By `read_var`, since `read_u64` with a second caller would not come in line.
pub fn read_time(body: &[u8], at: Whole) -> Result<Spelled, Reason>
    requires { PlaceIn body.now at.bit.0 }
    ensures { InEither (λ o. show_num (num_of (by_bits result)) ≡ run o body.now (format_of Time) at.bit.0) }
{
    var::read_var(body, at, 9, 1)
}
