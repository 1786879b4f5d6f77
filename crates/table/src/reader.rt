// A body that is read into the lent table.
ghost use Rattle.bits.specs.Places.{PlaceIn};

use bits::{BitPlace, Order};

// The bytes of a body in a bit order, the place of its next bit, and the lent table with the index of the next number. A number is stored only where there is room, so one
// engine serves the run that counts and the run that fills. After a refusal the index is behind what was shown, and nobody looks at the place.
#[derive(Drop)]
pub struct Reader<'a> {
    pub order: Order,
    pub body: &'a [u8],
    pub place: BitPlace,
    pub table: &'a mut [u64],
    pub index: usize,
    // The place is in the bytes or at their end.
    pub ghost inside: { PlaceIn body.now place.0 },
}
