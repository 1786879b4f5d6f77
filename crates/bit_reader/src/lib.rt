// A bit reader for hosts: it holds the file's bytes, its bit order and its place, and reads UB and SB fields.
#![tactic(auto)]

ghost use Rattle.std.specs.Prelude.{◌≡◌, true, false, ◌≤◌};
ghost use Rattle.bits.specs.Places.{PlaceIn, num_of, order_of};
ghost use Rattle.bit_reader.specs.Readers.{at_start, left, taken};
ghost use Rattle.bit_reader.specs.Fields.{in_bytes, field_of};
ghost use Rattle.bit_reader.specs.Near.{read_field};

use bits::fields::{read_sb, read_ub};
use bits::{BitPlace, Number, Order};
use reasons::Reason;

// The file's bytes, the number of a bit order, and a place in the bytes.
#[derive(Clone, Copy)]
pub struct BitReader<'a> {
    pub bytes: &'a [u8],
    pub order: u32,
    pub place: BitPlace,
}

// UB, or SB where the field is signed, of bytes whose places can all be counted.
// Stays: the C interface asks by a flag which of the two it is.
fn read_field(
    order: Order,
    bytes: &[u8],
    at: BitPlace,
    width: u64,
    signed: bool,
) -> Result<Number, Reason>
    requires { PlaceIn bytes.now at.0 × (1 ≤ width) × (width ≤ 32) }
    ensures { num_of result ≡ read_field (order_of order) signed bytes.now at.0 width }
{
    if signed {
        return read_sb(order, bytes, at, width);
    }
    read_ub(order, bytes, at, width)
}

// Looks only at the bytes near the place, so that bytes of any length are taken: a field of 32 bits touches five bytes at most.
fn read_near(
    order: Order,
    bytes: &[u8],
    place: BitPlace,
    width: u64,
    signed: bool,
) -> Result<Number, Reason>
    requires { (1 ≤ width) × (width ≤ 32) }
    ensures { num_of result ≡ in_bytes (order_of order) signed bytes.now place.0 width }
{
    let bit = place.0;
    let index = bit / 8;
    if bytes.len() <= index {
        return Err(Reason::ItemPastTheBody);
    }
    let Some(next) = bit.checked_add(width as usize) else {
        return Err(Reason::ItemPastTheBody);
    };
    let end = bytes.len().min(index + 5);
    let near = &bytes[index..end];
    let Number { value, .. } = read_field(order, near, BitPlace(bit % 8), width, signed)?;
    Ok(Number {
        value,
        next: BitPlace(next),
    })
}

// UB, or SB where the field is signed, at a place of the bytes. An order that is neither gives 24, then a width outside 1 to 32 gives 17, then a field
// past the end 13.
pub fn field_at(
    order: u32,
    bytes: &[u8],
    place: BitPlace,
    width: u32,
    signed: bool,
) -> Result<Number, Reason>
    ensures { num_of result ≡ field_of order signed bytes.now place.0 width }
{
    let order = Order::try_from(order)?;
    if width < 1 || 32 < width {
        return Err(Reason::CountOutsideItsRange);
    }
    read_near(order, bytes, place, u64::from(width), signed)
}

impl<'a> BitReader<'a> {
    // A reader of these bytes in the order of this number, at place 0.
    pub fn new(order: u32, bytes: &'a [u8]) -> Self
        ensures { result ≡ at_start order bytes.entry }
    {
        BitReader {
            bytes,
            order,
            place: BitPlace(0),
        }
    }

    // A field at the reader's place, and its place behind it. After a refusal the place is the same.
    fn take(&mut self, width: u32, signed: bool) -> Result<u64, Reason>
        ensures { left self.new result ≡ taken signed self.old width }
    {
        let Number { value, next } = field_at(self.order, self.bytes, self.place, width, signed)?;
        self.place = next;
        Ok(value)
    }

    // UB[width] at the reader's place.
    pub fn ub(&mut self, width: u32) -> Result<u64, Reason>
        ensures { left self.new result ≡ taken false self.old width }
    {
        self.take(width, false)
    }

    // SB[width] alike.
    pub fn sb(&mut self, width: u32) -> Result<u64, Reason>
        ensures { left self.new result ≡ taken true self.old width }
    {
        self.take(width, true)
    }
}
