// Little-endian numbers, and headers. Where a body's length is known before it, its header is put first. Else the body is: two bytes after the tag's
// place, which is room for the short header; for the long one it moves up by four. Where a short body claims the long header, six bytes are kept and
// nothing moves. So no body is measured before it is written.
#![tactic(auto)]

ghost use Rattle.std.specs.Prelude.{◌≡◌, ◌+◌, ◌-◌, ◌≤◌, ◌<◌, ◌^◌, min, take, drop};
ghost use Rattle.std.proofs.lemmas.List.Edits.{sets};
ghost use Rattle.format.specs.WritingFiles.{spell16, spell32, spell_long};
ghost use Rattle.write_heads.specs.Heads.{kept_bytes, Closed, Headed};

use bits::BytePlace;

// A 16-bit number.
fn put16(out: &mut [u8], at: BytePlace, number: u64)
    requires { (at.0 < 2 ^ 60) × (number < 65536) }
    ensures { out.new ≡ sets out.old at.0 (spell16 number) }
{
    sink::put_byte(out, at.0, number % 256);
    sink::put_byte(out, at.0 + 1, number / 256);
}

// A 32-bit number.
pub fn put32(out: &mut [u8], at: BytePlace, number: u64)
    requires { (at.0 < 2 ^ 60) × (number < 4294967296) }
    ensures { out.new ≡ sets out.old at.0 (spell32 number) }
{
    sink::put_byte(out, at.0, number % 256);
    sink::put_byte(out, at.0 + 1, number / 256 % 256);
    sink::put_byte(out, at.0 + 2, number / 65536 % 256);
    sink::put_byte(out, at.0 + 3, number / 16777216);
}

// Moves n bytes up, the last one first; those for which there is room.
pub fn move_up(out: &mut [u8], at: BytePlace, count: usize, by: usize)
    requires { (at.0 < 2 ^ 60) × (count < 2 ^ 60) × (by < 2 ^ 60) }
    ensures { out.new ≡ sets out.old (at.0 + by) (take count (drop at.0 out.old)) }
{
    if by == 0 {
        return;
    }
    let room = table::room_for(out.len(), at.0 + by, count);
    for i in (0..room).rev() {
        let from = at.0 + i;
        let to = from + by;
        out[to] = out[from];
    }
}

// The bytes kept for the header of a body that is put first: those of the long one where it is claimed.
pub fn kept(claimed: bool) -> usize
    ensures { result ≡ kept_bytes claimed }
{
    if claimed { 6 } else { 2 }
}

// The long header.
fn put_long(out: &mut [u8], place: BytePlace, code: u32, length: usize)
    requires { (place.0 < 2 ^ 32) × (code < 1024) × (length < 2 ^ 32) }
    ensures { out.new ≡ sets out.old place.0 (spell_long code length) }
{
    put16(out, place, code as u64 * 64 + 63);
    put32(out, BytePlace(place.0 + 2), length as u64);
}

// The header of a tag at a place, before its body, whose length is known: the body's place.
pub fn put_head(
    out: &mut [u8],
    place: BytePlace,
    claimed: bool,
    code: u32,
    length: usize,
) -> BytePlace
    requires { (place.0 < 2 ^ 32) × (code < 1024) × (length < 2 ^ 32) }
    ensures { Headed out.old place.0 claimed code length out.new result.0 }
{
    if claimed {
        put_long(out, place, code, length);
        return BytePlace(place.0 + 6);
    }
    if length <= 62 {
        put16(out, place, code as u64 * 64 + length as u64);
        return BytePlace(place.0 + 2);
    }
    put_long(out, place, code, length);
    BytePlace(place.0 + 6)
}

// The header of the tag at a place, whose body stands behind the bytes kept for it, up to stop: the next place. Where the long header is not
// claimed, the short one is for bodies below 63 bytes.
pub fn close(
    out: &mut [u8],
    place: BytePlace,
    claimed: bool,
    code: u32,
    stop: BytePlace,
) -> BytePlace
    requires { (place.0 + kept_bytes claimed ≤ stop.0) × (stop.0 < 2 ^ 32) × (code < 1024) }
    ensures { Closed out.old place.0 claimed code (stop.0 - (place.0 + kept_bytes claimed)) out.new result.0 }
{
    let from = place.0 + kept(claimed);
    let length = stop.0 - from;
    if claimed {
        put_long(out, place, code, length);
        return stop;
    }
    if length < 63 {
        put16(out, place, code as u64 * 64 + length as u64);
        return stop;
    }
    move_up(out, BytePlace(from), length, 4);
    put_long(out, place, code, length);
    let next = stop.0 + 4;
    BytePlace(next)
}
