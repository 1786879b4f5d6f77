// Bits put after one another into a lent output: whole bytes are stored where there is room, the bits of a byte that has begun wait in the sink.
#![tactic(auto)]

ghost use Rattle.std.specs.Prelude.{◌≡◌, ◌+◌, ◌*◌, ◌^◌, ◌<◌, ◌≤◌, set};
ghost use Rattle.format.specs.WritingItems.{dig, glue as one_field};
ghost use Rattle.bits.specs.Places.{order_of};
ghost use Rattle.sink.specs.Laying.{at as under, mk, lay, Holds, Skipped, Split};

use bits::{BitPlace, BytePlace, Order, Whole};

// The next bit place, and the bits of its byte that were put, as a field.
#[derive(Clone, Copy)]
pub struct Sink {
    pub place: BitPlace,
    pub part: u64,
}

// No file has the values.
#[derive(Clone, Copy, Debug, PartialEq, Eq)]
pub struct Impossible;

// Stores a byte where there is room for it.
// Stays: `table::put` for bytes, but this crate stands below the table, and a writer needs none.
pub fn put_byte(out: &mut [u8], i: usize, value: u64)
    requires { value < 256 }
    ensures { out.new ≡ set out.old i value }
{
    if i < out.len() {
        out[i] = value as u8;
    }
}

// A power of two.
pub fn power(exponent: usize) -> u64
    requires { exponent < 64 }
    ensures { (result ≡ 2 ^ exponent) × (0 < result) }
{
    1u64 << exponent
}

// Two fields as one: the first with so many bits before, the last with so many behind.
pub fn glue(order: Order, first: u64, before: usize, last: u64, behind: usize) -> u64
    requires { (before + behind < 64) × (first < 2 ^ before) × (last < 2 ^ behind) }
    ensures { (result ≡ one_field (order_of order) before behind first last) × (result < 2 ^ (before + behind)) }
{
    match order {
        Order::HighFirst => first * power(behind) + last,
        Order::LowFirst => last * power(before) + first,
    }
}

// One field as two, so glued.
pub fn split(order: Order, value: u64, before: usize, behind: usize) -> (u64, u64)
    requires { (before + behind < 64) × (value < 2 ^ (before + behind)) }
    ensures { Split (order_of order) before behind value result.0 result.1 }
{
    match order {
        Order::HighFirst => {
            let unit = power(behind);
            (value / unit, value % unit)
        }
        Order::LowFirst => {
            let unit = power(before);
            (value % unit, value / unit)
        }
    }
}

// A field of w bits: those that wait and these, a byte at a time. The count of the bits that wait falls by eight, so no range counts the bytes.
pub fn put_bits(order: Order, out: &mut [u8], sink: Sink, value: u64, width: usize) -> Sink
    requires { Holds sink.place.0 sink.part × (sink.place.0 ≤ 2 ^ 60) × (width ≤ 32) × (value < 2 ^ width) }
    ensures { under out.new result ≡ lay (order_of order) (under out.old sink) (dig (order_of order) width value) }
{
    if width == 0 {
        return sink;
    }
    let at = sink.place.0;
    let place = BitPlace(at + width);
    // Past the end no byte is stored, and no bits wait for one: so the run that measures puts nothing together.
    if out.len() <= at / 8 {
        return Sink { place, part: 0 };
    }
    let mut i = at / 8;
    let begun = sink.part;
    let used = at % 8;
    let mut count = used + width;
    let mut waiting = glue(order, begun, used, value, width);
    while 8 <= count {
        count -= 8;
        let (byte, rest) = split(order, waiting, 8, count);
        put_byte(out, i, byte);
        waiting = rest;
        i += 1;
    }
    if out.len() <= i {
        return Sink { place, part: 0 };
    }
    Sink {
        place,
        part: waiting,
    }
}

// A field of 32 bits from a whole byte on: its four bytes.
pub fn put_word(order: Order, out: &mut [u8], byte: usize, value: u64)
    requires { (8 * byte ≤ 2 ^ 60) × (value < 2 ^ 32) }
    ensures { mk out.new (8 * byte + 32) 0 ≡ lay (order_of order) (mk out.old (8 * byte) 0) (dig (order_of order) 32 value) }
{
    // Near the end of the output byte by byte, else by one store.
    if out.len() < byte + 4 {
        let place = bits::first_bit(BytePlace(byte));
        put_bits(order, out, Sink { place, part: 0 }, value, 32);
        return;
    }
    let (first, behind_first) = split(order, value, 8, 24);
    let (second, behind_second) = split(order, behind_first, 8, 16);
    let (third, fourth) = split(order, behind_second, 8, 8);
    out[byte] = first as u8;
    out[byte + 1] = second as u8;
    out[byte + 2] = third as u8;
    out[byte + 3] = fourth as u8;
}

// The next whole byte: zero bits up to it.
pub fn align(order: Order, out: &mut [u8], sink: Sink) -> Whole
    requires { Holds sink.place.0 sink.part × (sink.place.0 ≤ 2 ^ 60) }
    ensures { Skipped (order_of order) (under out.old sink) out.new result.byte.0 result.bit.0 }
{
    let place = sink.place.0;
    let used = place % 8;
    // Asked first, as the reader does.
    if used == 0 {
        return bits::next_byte(sink.place);
    }
    let begun = sink.part;
    put_byte(out, place / 8, glue(order, begun, used, 0, 8 - used));
    bits::next_byte(sink.place)
}
