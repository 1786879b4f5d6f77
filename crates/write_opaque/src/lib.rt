// Opaque tags, written from the packed numbers of their bodies: the body's length, and then eight bytes to a number, the first of them lowest. The length
// is known before the body, so the header is put first, and nothing moves.
#![tactic(auto)]

ghost use Rattle.std.specs.Prelude.{◌≡◌, ◌+◌, ◌-◌, ◌*◌, ◌/◌, ◌≤◌, ◌<◌, length, take, drop};
ghost use Rattle.std.proofs.lemmas.List.Edits.{sets};
ghost use Rattle.format.specs.TableOfNumbers.{eight_of, spread};
ghost use Rattle.format.specs.WritingFiles.{unpacked_as};
ghost use Rattle.sink.specs.Lain.{longest, lies, lain_as};
ghost use Rattle.write_opaque.specs.Filling.{filled};
ghost use Rattle.write_opaque.specs.Headers.{under_header};

use bits::BytePlace;
use sink::Impossible;

// The eight bytes of a number, by one store.
fn put_eight(out: &mut [u8], at: usize, number: u64)
    requires { at + 8 ≤ length out.old }
    ensures { out.new ≡ sets out.old at (eight_of number) }
{
    out[at] = (number % 256) as u8;
    out[at + 1] = (number / 256 % 256) as u8;
    out[at + 2] = (number / 65536 % 256) as u8;
    out[at + 3] = (number / 16777216 % 256) as u8;
    out[at + 4] = (number / 4294967296 % 256) as u8;
    out[at + 5] = (number / 1099511627776 % 256) as u8;
    out[at + 6] = (number / 281474976710656 % 256) as u8;
    out[at + 7] = (number / 72057594037927936 % 256) as u8;
}

// The first bytes of a number, fewer than eight.
fn put_few(out: &mut [u8], at: usize, number: u64, count: usize)
    requires { (at + count ≤ length out.old) × (count < 8) }
    ensures { out.new ≡ sets out.old at (take count (eight_of number)) }
{
    for i in 0..count {
        let index = at + i;
        out[index] = ((number >> (8 * i) as u64) % 256) as u8;
    }
}

// So many whole numbers, those after the body's length.
fn lay_eights(values: &[u64], out: &mut [u8], from: usize, count: usize)
    requires { (1 + count ≤ length values.now) × (8 * count ≤ length out.old - from) }
    ensures { out.new ≡ sets out.old from (spread (take count (drop 1 values.now))) }
{
    for i in 0..count {
        put_eight(out, from + 8 * i, values[1 + i]);
    }
}

// Whether the filling of the last number is zero: the bytes of it past the body's end.
fn is_filled(values: &[u64], len: usize) -> bool
    requires { length values.now ≡ 1 + (len + 7) / 8 }
    ensures { result ≡ filled len (drop 1 values.now) }
{
    let left = len % 8;
    if left == 0 {
        return true;
    }
    values[1 + len / 8] < sink::power(8 * left)
}

// The body, where its count of numbers and the filling of the last one fit its length. What there is no room for is not laid: the run that measures
// looks at the length and the last number alone.
fn unpack_bytes(values: &[u64], out: &mut [u8], at: BytePlace) -> Result<BytePlace, Impossible>
    requires { at.0 ≤ longest }
    ensures { lain_as out.new result ≡ lies out.old at.0 (unpacked_as values.now) }
{
    let from = at.0;
    if values.len() == 0 {
        return Err(Impossible);
    }
    let length = values[0];
    if ((16777216 - from) as u64) < length {
        return Err(Impossible);
    }
    let len = length as usize;
    if values.len() != 1 + (len + 7) / 8 {
        return Err(Impossible);
    }
    if !is_filled(values, len) {
        return Err(Impossible);
    }
    let stop = from + len;
    let room = table::room_for(out.len(), from, len);
    let whole = room / 8;
    lay_eights(values, out, from, whole);
    let left = room % 8;
    if left == 0 {
        return Ok(BytePlace(stop));
    }
    put_few(out, from + 8 * whole, values[1 + whole], left);
    Ok(BytePlace(stop))
}

// The whole tag: its header, of the length that its first number says, and the body behind it. A claimed header is for bodies below 63 bytes.
pub fn write_tag(
    code: u32,
    claimed: bool,
    values: &[u64],
    out: &mut [u8],
    place: BytePlace,
) -> Result<BytePlace, Impossible>
    requires { (place.0 ≤ longest) × (code < 1024) }
    ensures { lain_as out.new result ≡ lies out.old place.0 (under_header claimed code (unpacked_as values.now)) }
{
    if values.len() == 0 {
        return Err(Impossible);
    }
    let length = values[0];
    if 16777216 < length {
        return Err(Impossible);
    }
    if claimed {
        if 62 < length {
            return Err(Impossible);
        }
    }
    let at = write_heads::put_head(out, place, claimed, code, length as usize);
    if 16777216 < at.0 {
        return Err(Impossible);
    }
    unpack_bytes(values, out, at)
}
