// UB and SB fields, read by the bytes that they touch.
ghost use Rattle.std.specs.Prelude.{◌≡◌, ◌+◌, ◌-◌, ◌*◌, ◌/◌, ◌%◌, ◌^◌, ◌<◌, ◌≤◌, min, length, drop};
ghost use Rattle.format.specs.Bits.{low, ub as field_at};
ghost use Rattle.format.specs.Items.{read_ub, read_sb, read_width, sign_extend};
ghost use Rattle.format.specs.FileAndTags.{le64};
ghost use Rattle.format.specs.WritingItems.{below as below_of};
ghost use Rattle.bits.specs.Places.{PlaceIn, num_of, order_of, turned_of, ordered_by, bit_of, with_sign};

use crate::{BitPlace, Number, Order};
use reasons::Reason;

// n bits of x, with b bits below them.
pub(crate) fn cut(x: u64, below: u64, width: u64) -> u64
    requires { (below < 64) × (width < 64) }
    ensures { (result ≡ x / 2 ^ below % 2 ^ width) × (result < 2 ^ width) }
{
    (x >> below) % (1u64 << width)
}

// How many bits of a number count less than a field in it that has so many bits before it, and so many behind it.
pub(crate) fn bits_below(order: Order, before: u64, behind: u64) -> u64
    ensures { result ≡ below_of (order_of order) before behind }
{
    match order {
        Order::HighFirst => behind,
        Order::LowFirst => before,
    }
}

// The bytes of a slice of fewer than eight as one number, the first of them lowest; zeros stand past the end.
pub fn few(bytes: &[u8]) -> u64
    requires { length bytes.now < 8 }
    ensures { (result ≡ field_at low bytes.now 0 64) × (result ≡ le64 bytes.now) }
{
    let mut sum = 0;
    for i in (0..bytes.len()).rev() {
        sum = sum * 256 + u64::from(bytes[i]);
    }
    sum
}

// Eight bytes as one number, the first of them lowest, by one load.
pub fn eight(bytes: &[u8], i: usize) -> u64
    requires { i + 8 ≤ length bytes.now }
    ensures { (result ≡ field_at low bytes.now (8 * i) 64) × (result ≡ le64 (drop i bytes.now)) }
{
    let b0 = u64::from(bytes[i]);
    let b1 = u64::from(bytes[i + 1]);
    let b2 = u64::from(bytes[i + 2]);
    let b3 = u64::from(bytes[i + 3]);
    let b4 = u64::from(bytes[i + 4]);
    let b5 = u64::from(bytes[i + 5]);
    let b6 = u64::from(bytes[i + 6]);
    let b7 = u64::from(bytes[i + 7]);
    ((((((b7 * 256 + b6) * 256 + b5) * 256 + b4) * 256 + b3) * 256 + b2) * 256 + b1) * 256 + b0
}

// Eight bytes the other way round, by one instruction.
fn turned(x: u64) -> u64
    ensures { result ≡ turned_of x }
{
    let b0 = x % 256;
    let b1 = x / 256 % 256;
    let b2 = x / 65536 % 256;
    let b3 = x / 16777216 % 256;
    let b4 = x / 4294967296 % 256;
    let b5 = x / 1099511627776 % 256;
    let b6 = x / 281474976710656 % 256;
    let b7 = x / 72057594037927936 % 256;
    ((((((b0 * 256 + b1) * 256 + b2) * 256 + b3) * 256 + b4) * 256 + b5) * 256 + b6) * 256 + b7
}

// A field out of eight bytes that are one number, the first of them lowest; so many bits stand before it. High first the first byte counts most.
fn cut_out(order: Order, x: u64, before: u64, width: u64) -> u64
    requires { (before + width ≤ 64) × (before < 64) × (1 ≤ width) × (width ≤ 32) }
    ensures { (result ≡ ordered_by (order_of order) x / 2 ^ below_of (order_of order) before (64 - before - width) % 2 ^ width) × (result < 2 ^ width) }
{
    match order {
        Order::HighFirst => cut(turned(x), 64 - before - width, width),
        Order::LowFirst => cut(x, before, width),
    }
}

// A field that stands in the bytes: it is cut out of the eight bytes from its first one on, or of the last eight, or of all if there are fewer.
pub fn field(order: Order, bytes: &[u8], at: BitPlace, width: u64) -> u64
    requires { (at.0 + width ≤ 8 * length bytes.now) × (length bytes.now < 2 ^ 60) × (1 ≤ width) × (width ≤ 32) }
    ensures { (result ≡ field_at (order_of order) bytes.now at.0 width) × (result < 2 ^ width) }
{
    let place = at.0;
    let len = bytes.len();
    if len < 8 {
        return cut_out(order, few(bytes), place as u64, width);
    }
    let i = (place / 8).min(len - 8);
    cut_out(order, eight(bytes, i), (place - 8 * i) as u64, width)
}

// A field that stands in one byte: it is cut out of that one.
fn field_in_byte(order: Order, bytes: &[u8], at: BitPlace, width: u64) -> u64
    requires { (at.0 % 8 + width ≤ 8) × (1 ≤ width) }
    ensures { result ≡ field_at (order_of order) bytes.now at.0 width }
{
    let place = at.0;
    let used = (place % 8) as u64;
    let below = bits_below(order, used, 8 - used - width);
    cut(crate::byte_at(bytes, place / 8), below, width)
}

// The first five bytes as one number in the order of reading; zeros stand past the end.
pub fn first_bits(order: Order, bytes: &[u8]) -> u64
    ensures { result ≡ field_at (order_of order) bytes.now 0 40 }
{
    let b0 = crate::byte_at(bytes, 0);
    let b1 = crate::byte_at(bytes, 1);
    let b2 = crate::byte_at(bytes, 2);
    let b3 = crate::byte_at(bytes, 3);
    let b4 = crate::byte_at(bytes, 4);
    match order {
        Order::HighFirst => (((b0 * 256 + b1) * 256 + b2) * 256 + b3) * 256 + b4,
        Order::LowFirst => (((b4 * 256 + b3) * 256 + b2) * 256 + b1) * 256 + b0,
    }
}

// One of these 40 bits.
pub fn bit_of(order: Order, first: u64, place: u64) -> u64
    requires { place < 40 }
    ensures { (result ≡ bit_of (order_of order) first place) × (result < 2) }
{
    cut(first, bits_below(order, place, 39 - place), 1)
}

// UB[n]; past the end of the bytes it is refused (13). A bit is always in one byte, so of a flag the bytes around it are not touched.
pub fn read_ub(order: Order, bytes: &[u8], at: BitPlace, width: u64) -> Result<Number, Reason>
    requires { PlaceIn bytes.now at.0 × (1 ≤ width) × (width ≤ 32) }
    ensures { num_of result ≡ read_ub (order_of order) bytes.now at.0 width }
{
    let place = at.0;
    let next = place + width as usize;
    if bytes.len() * 8 < next {
        return Err(Reason::ItemPastTheBody);
    }
    let value = if (place % 8) as u64 + width <= 8 {
        field_in_byte(order, bytes, at, width)
    } else {
        field(order, bytes, at, width)
    };
    Ok(Number {
        value,
        next: BitPlace(next),
    })
}

// A number below `size`, the last so many of which are negative ones: those are kept modulo 2^64, by a difference that wraps. No branch, since signs are hard to foretell.
pub fn with_sign(value: u64, size: u64, negatives: u64) -> u64
    requires { (value < size) × (negatives ≤ size) × (size ≤ 2 ^ 32) }
    ensures { result ≡ with_sign size negatives value }
{
    std::num::wrapping_sub_u64((value + negatives) % size, negatives)
}

// A field of n bits as a signed number: of the numbers that n bits have, the upper half are negative ones.
fn extend(value: u64, width: u64) -> u64
    requires { (1 ≤ width) × (width ≤ 32) × (value < 2 ^ width) }
    ensures { result ≡ sign_extend width value }
{
    let size = 1u64 << width;
    let half = size / 2;
    with_sign(value, size, half)
}

// SB[n].
pub fn read_sb(order: Order, bytes: &[u8], at: BitPlace, width: u64) -> Result<Number, Reason>
    requires { PlaceIn bytes.now at.0 × (1 ≤ width) × (width ≤ 32) }
    ensures { num_of result ≡ read_sb (order_of order) bytes.now at.0 width }
{
    let Number { value, next } = read_ub(order, bytes, at, width)?;
    Ok(Number {
        value: extend(value, width),
        next,
    })
}

// A width: UB[5] plus 1.
pub fn read_width(order: Order, bytes: &[u8], at: BitPlace) -> Result<Number, Reason>
    requires { PlaceIn bytes.now at.0 }
    ensures { num_of result ≡ read_width (order_of order) bytes.now at.0 }
{
    let Number { value, next } = read_ub(order, bytes, at, 5)?;
    Ok(Number {
        value: value + 1,
        next,
    })
}
