// Places in the bytes of a body, and the bit fields that stand there.
#![tactic(auto)]

ghost use Rattle.std.specs.Prelude.{◌≡◌, ◌+◌, ◌*◌, ◌^◌, ◌<◌, slice_index};
ghost use Rattle.format.specs.Bits.{order_named};
ghost use Rattle.format.specs.Items.{skipped, read_align};
ghost use Rattle.bits.specs.Places.{PlaceIn, aligned_as, order_by, order_of};

pub mod fields;
mod whole;

use reasons::Reason;
pub use whole::Whole;

// In which order bits are taken from a byte and joined to a field: from the highest on, or from the lowest.
#[derive(Clone, Copy, Debug, PartialEq, Eq)]
pub enum Order {
    HighFirst,
    LowFirst,
}

// Bit places and byte places are counted apart, and only `next_byte` turns one into the other; `first_bit` is its way back. A place is counted from
// the start of the bytes that it is a place in. To address the byte in which a bit stands is no conversion.
#[derive(Clone, Copy, Debug, PartialEq, Eq)]
pub struct BitPlace(pub usize);

#[derive(Clone, Copy, Debug, PartialEq, Eq)]
pub struct BytePlace(pub usize);

// A number and the place after it.
#[derive(Clone, Copy, Debug, PartialEq, Eq)]
pub struct Number {
    pub value: u64,
    pub next: BitPlace,
}

// The order that a call's number names: 0 is high first, 1 low first, and any other number is refused (24).
impl TryFrom<u32> for Order {
    type Error = Reason;

    ghost try_from_gives = { λ number given. given ≡ order_by number };

    fn try_from(number: u32) -> Result<Order, Reason> {
        match number {
            0 => Ok(Order::HighFirst),
            1 => Ok(Order::LowFirst),
            _ => Err(Reason::OrderUnknown),
        }
    }
}

// The same order of any number: what is neither 0 nor 1 counts as low first.
pub fn order_named(number: u32) -> Order
    ensures { order_of result ≡ order_named number }
{
    if number == 0 {
        Order::HighFirst
    } else {
        Order::LowFirst
    }
}

// The byte at an index as a number; past the end stand zeros.
pub fn byte_at(bytes: &[u8], i: usize) -> u64
    ensures { (result ≡ slice_index bytes.now i) × (result < 256) }
{
    match bytes.get(i) {
        Some(&byte) => u64::from(byte),
        None => 0,
    }
}

// The whole byte at or after a bit place.
pub fn next_byte(at: BitPlace) -> Whole
    requires { at.0 < 2 ^ 63 }
    ensures { result.bit.0 ≡ at.0 + skipped at.0 }
{
    let place = at.0;
    let byte = place / 8;
    let used = place % 8;
    if used == 0 {
        return Whole {
            byte: BytePlace(byte),
            bit: BitPlace(place),
        };
    }
    Whole {
        byte: BytePlace(byte + 1),
        bit: BitPlace(place + (8 - used)),
    }
}

// The way back: the first bit of a byte.
pub fn first_bit(at: BytePlace) -> BitPlace
    requires { at.0 < 2 ^ 60 }
    ensures { result.0 ≡ 8 * at.0 }
{
    BitPlace(8 * at.0)
}

// The next whole byte: the bits up to it are skipped, and zero (15).
pub fn align(order: Order, bytes: &[u8], at: BitPlace) -> Result<Whole, Reason>
    requires { PlaceIn bytes.now at.0 }
    ensures { aligned_as result ≡ read_align (order_of order) bytes.now at.0 }
{
    let place = at.0;
    let used = place % 8;
    // Asked before the call: counted, it then costs no more than the shift that it stands for (docs/SPEED.md).
    if used == 0 {
        return Ok(next_byte(at));
    }
    let below = fields::bits_below(order, used as u64, 0);
    if fields::cut(byte_at(bytes, place / 8), below, (8 - used) as u64) != 0 {
        return Err(Reason::SkippedBitNotZero);
    }
    Ok(next_byte(at))
}
