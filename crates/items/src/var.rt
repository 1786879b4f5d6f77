// U32, U64 and I32: seven bits a byte, lowest first, top bit set when more follow.
ghost use Rattle.std.specs.Prelude.{◌≡◌, ◌-◌, ◌*◌, ◌^◌, ◌<◌, ◌≤◌};
ghost use Rattle.format.specs.Items.{read_var, read_u32, read_u64, not_one, map_num, sign};
ghost use Rattle.bits.specs.Places.{PlaceIn, num_of, InEither};
ghost use Rattle.items.specs.Kinds.{can_end, cap, by_bits};

use crate::Spelled;
use bits::{BitPlace, BytePlace, Number, Whole};
use reasons::Reason;

// May b end a spelling of several bytes, with `left` more allowed after it? Only the shortest is taken, and the last byte is at most `top`.
fn ends(byte: u64, left: u64, top: u64) -> bool
    ensures { result ≡ can_end left top byte }
{
    if byte == 0 {
        return false;
    }
    if 0 < left { true } else { byte <= top }
}

// A number up to a byte place, which is this bit place.
fn spelled(value: u64, byte: usize, bit: usize) -> Spelled
    requires { bit ≡ 8 * byte }
    ensures { (result.value ≡ value) × (result.next.bit.0 ≡ bit) }
{
    Spelled {
        value,
        next: Whole {
            byte: BytePlace(byte),
            bit: BitPlace(bit),
        },
    }
}

// A first byte, and at most `most` more, the last of these at most `top`.
pub(crate) fn read_var(body: &[u8], at: Whole, most: u64, top: u64) -> Result<Spelled, Reason>
    requires { PlaceIn body.now at.bit.0 × (1 ≤ most) × (1 ≤ top) × (top < 128) × (128 * cap (most - 1) top ≤ 2 ^ 64) }
    ensures { InEither (λ o. num_of (by_bits result) ≡ read_var o body.now top at.bit.0 most) }
{
    let mut i = at.byte.0;
    let mut next = at.bit.0;
    if body.len() <= i {
        return Err(Reason::ItemPastTheBody);
    }
    let value = bits::byte_at(body, i);
    i += 1;
    next += 8;
    if value < 128 {
        return Ok(spelled(value, i, next));
    }
    let mut sum = value - 128;
    let mut weight = 128u64;
    let mut left = most;
    // Stays: the last byte is judged before the weight grows, which a `for` over the bytes left would do twice.
    loop {
        if body.len() <= i {
            return Err(Reason::ItemPastTheBody);
        }
        let value = bits::byte_at(body, i);
        i += 1;
        next += 8;
        left -= 1;
        if value < 128 {
            if ends(value, left, top) {
                let total = sum + value * weight;
                return Ok(spelled(total, i, next));
            }
            return Err(Reason::Spelling);
        }
        if left == 0 {
            return Err(Reason::Spelling);
        }
        sum += (value - 128) * weight;
        weight *= 128;
    }
}

// The same with its bit place alone.
fn read_number(body: &[u8], at: Whole, most: u64, top: u64) -> Result<Number, Reason>
    requires { PlaceIn body.now at.bit.0 × (1 ≤ most) × (1 ≤ top) × (top < 128) × (128 * cap (most - 1) top ≤ 2 ^ 64) }
    ensures { InEither (λ o. num_of result ≡ read_var o body.now top at.bit.0 most) }
{
    let Spelled { value, next } = read_var(body, at, most, top)?;
    Ok(Number {
        value,
        next: next.bit,
    })
}

// U32: at most 5 bytes, the fifth at most 15.
pub(crate) fn read_u32(body: &[u8], at: Whole) -> Result<Number, Reason>
    requires { PlaceIn body.now at.bit.0 }
    ensures { InEither (λ o. num_of result ≡ read_u32 o body.now at.bit.0) }
{
    read_number(body, at, 4, 15)
}

// U64: at most 10 bytes, the tenth at most 1.
pub(crate) fn read_u64(body: &[u8], at: Whole) -> Result<Number, Reason>
    requires { PlaceIn body.now at.bit.0 }
    ensures { InEither (λ o. num_of result ≡ read_u64 o body.now at.bit.0) }
{
    read_number(body, at, 9, 1)
}

// I32: a U32 d; the magnitude is d / 2, odd d is negative, minus zero is refused (14).
pub(crate) fn read_i32(body: &[u8], at: Whole) -> Result<Number, Reason>
    requires { PlaceIn body.now at.bit.0 }
    ensures { InEither (λ o. num_of result ≡ map_num sign (not_one (read_u32 o body.now at.bit.0))) }
{
    let Number { value: d, next } = read_u32(body, at)?;
    if d == 1 {
        return Err(Reason::Spelling);
    }
    let magnitude = d / 2;
    let value = if d % 2 == 0 {
        magnitude
    } else {
        std::num::wrapping_sub_u64(0, magnitude)
    };
    Ok(Number { value, next })
}
