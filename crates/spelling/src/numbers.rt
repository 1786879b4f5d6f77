// The spellings of one number, from a whole byte on: whole bytes are the same in either order. The answer is the byte place behind it, where the number has a spelling.
ghost use Rattle.std.specs.Prelude.{◌≡◌, ◌*◌, ◌<◌, ◌≤◌};
ghost use Rattle.format.specs.WritingItems.{spell_ub, spell_var, spell_i32, spell_le};
ghost use Rattle.bits.specs.Places.{InEither};
ghost use Rattle.sink.specs.Laying.{mk};
ghost use Rattle.spelling.specs.Writing.{bits_over};
ghost use Rattle.spelling.specs.Spellings.{spelling_of, spelled_to, four_bytes};

use items::Item;
use sink::{Impossible, put_byte};

// One byte.
fn spell_byte(out: &mut [u8], at: usize, value: u64) -> Result<usize, Impossible>
    requires { at ≤ 16777216 }
    ensures { InEither (λ o. spelled_to out.new result ≡ bits_over o (mk out.old (8 * at) 0) (spell_ub o 8 value)) }
{
    if 255 < value {
        return Err(Impossible);
    }
    put_byte(out, at, value);
    Ok(at + 1)
}

// Stores four bytes, lowest first, where there is room for them.
fn put_float(out: &mut [u8], at: usize, value: u64)
    requires { (at ≤ 16777216) × (value ≤ 4294967295) }
    ensures { out.new ≡ four_bytes out.old at value }
{
    // Asked once for all four, and not at all where nothing is stored.
    if out.len() <= at {
        return;
    }
    if at + 4 <= out.len() {
        out[at] = (value % 256) as u8;
        out[at + 1] = (value / 256 % 256) as u8;
        out[at + 2] = (value / 65536 % 256) as u8;
        out[at + 3] = (value / 16777216) as u8;
        return;
    }
    put_byte(out, at, value % 256);
    put_byte(out, at + 1, value / 256 % 256);
    put_byte(out, at + 2, value / 65536 % 256);
    put_byte(out, at + 3, value / 16777216);
}

// A Float.
fn spell_float(out: &mut [u8], at: usize, value: u64) -> Result<usize, Impossible>
    requires { at ≤ 16777216 }
    ensures { InEither (λ o. spelled_to out.new result ≡ bits_over o (mk out.old (8 * at) 0) (spell_le o value 4)) }
{
    if 4294967295 < value {
        return Err(Impossible);
    }
    put_float(out, at, value);
    Ok(at + 4)
}

// Two bytes, lowest first.
fn spell_uint16(out: &mut [u8], at: usize, value: u64) -> Result<usize, Impossible>
    requires { at ≤ 16777216 }
    ensures { InEither (λ o. spelled_to out.new result ≡ bits_over o (mk out.old (8 * at) 0) (spell_le o value 2)) }
{
    if 65535 < value {
        return Err(Impossible);
    }
    put_byte(out, at, value % 256);
    put_byte(out, at + 1, value / 256);
    Ok(at + 2)
}

// Seven bits a byte, lowest first: at most `most` bytes with the top bit set, and a last one, which is at most `top` after so many.
pub(crate) fn spell_var(
    out: &mut [u8],
    at: usize,
    value: u64,
    most: usize,
    top: u64,
) -> Result<usize, Impossible>
    requires { (at ≤ 16777216) × (most ≤ 9) × (top < 128) }
    ensures { InEither (λ o. spelled_to out.new result ≡ bits_over o (mk out.old (8 * at) 0) (spell_var o top value most)) }
{
    let mut rest = value;
    for i in 0..most {
        if rest < 128 {
            put_byte(out, at + i, rest);
            return Ok(at + i + 1);
        }
        put_byte(out, at + i, 128 + rest % 128);
        rest /= 128;
    }
    if top < rest {
        return Err(Impossible);
    }
    put_byte(out, at + most, rest);
    Ok(at + most + 1)
}

// I32: twice the magnitude, plus 1 for a negative number, which the wrapping difference turns back.
fn spell_i32(out: &mut [u8], at: usize, value: u64) -> Result<usize, Impossible>
    requires { at ≤ 16777216 }
    ensures { InEither (λ o. spelled_to out.new result ≡ bits_over o (mk out.old (8 * at) 0) (spell_i32 o value)) }
{
    if value < 9223372036854775808 {
        return spell_var(out, at, value * 2, 4, 15);
    }
    let magnitude = std::num::wrapping_sub_u64(0, value);
    if 2147483647 < magnitude {
        return Err(Impossible);
    }
    spell_var(out, at, magnitude * 2 + 1, 4, 15)
}

// One number by its kind; its range is looked at before.
pub(crate) fn spell_item(
    kind: Item,
    out: &mut [u8],
    at: usize,
    value: u64,
) -> Result<usize, Impossible>
    requires { at ≤ 16777216 }
    ensures { InEither (λ o. spelled_to out.new result ≡ bits_over o (mk out.old (8 * at) 0) (spelling_of o kind value)) }
{
    match kind {
        Item::U32 | Item::Count(_) => spell_var(out, at, value, 4, 15),
        Item::I32 => spell_i32(out, at, value),
        Item::Time => spell_var(out, at, value, 9, 1),
        Item::Float => spell_float(out, at, value),
        Item::Uint16 => spell_uint16(out, at, value),
        Item::Byte | Item::Enum(_) | Item::BlendMode => spell_byte(out, at, value),
    }
}
