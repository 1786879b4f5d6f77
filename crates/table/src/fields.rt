// Runs of bit fields: verbs, coordinates, interpolations, keyframed Bools, bytes and Points, easing, spatial flags.
ghost use Rattle.std.specs.Prelude.{true, false, ◌≡◌, ◌+◌, ◌-◌, ◌*◌, ◌/◌, ◌≤◌, ◌<◌, ◌^◌, min, get_or, length};
ghost use Rattle.format.specs.Formats.{item as one_of, Item as ItemOf, times, the, ◌▹◌};
ghost use Rattle.format.specs.Tests.{pick};
ghost use Rattle.format.specs.Items.{run};
ghost use Rattle.table.specs.Readers.{Reads, Room, Kept, Stops, Passable, Passes};
ghost use Rattle.table.specs.Fields.{LaysFields, allows, signed, field_of, announced, weights, shows_all, sum_told, reason_told};
ghost use Rattle.bits.specs.Places.{order_of};

use crate::{Reader, put, room_for};
use bits::BitPlace;
use reasons::Reason;

// A plain one is a keyframed Bool, or an x or y of a Spatial Point.
#[derive(Clone, Copy, Debug, PartialEq, Eq)]
pub enum Field {
    Verb,
    Interpolation,
    SpatialFlag,
    Plain,
    ByteValue,
    Coordinate,
}

// Fields that were not all read: why, and how many signed fields those before announce.
#[derive(Clone, Copy, Debug, PartialEq, Eq)]
pub struct Stopped {
    pub why: Reason,
    pub announced: usize,
}

impl From<Stopped> for Reason {
    ghost from_gives = { λ stopped why. why ≡ stopped.why };

    fn from(stopped: Stopped) -> Reason {
        stopped.why
    }
}

// What is refused before any field announces nothing.
impl From<Reason> for Stopped {
    ghost from_gives = { λ why stopped. stopped ≡ record { why = why; announced = 0 } };

    fn from(why: Reason) -> Stopped {
        Stopped { why, announced: 0 }
    }
}

// What the numbers 0 to 7 announce in a field of this kind: a verb its coordinates, a Bezier frame four easing numbers, a set spatial flag a Point.
pub fn weights_of(kind: Field) -> [usize; 8]
    ensures { result ≡ weights kind }
{
    match kind {
        Field::Verb => [0, 2, 2, 1, 1, 4, 4, 6],
        Field::Interpolation => [0, 0, 4, 0, 0, 0, 0, 0],
        Field::SpatialFlag => [0, 2, 0, 0, 0, 0, 0, 0],
        Field::Plain | Field::ByteValue | Field::Coordinate => [0; 8],
    }
}

// What a number announces; a greater one than these announces nothing.
pub fn weight(weights: &[usize], value: u64) -> usize
    ensures { result ≡ get_or weights.now value 0 }
{
    if value < weights.len() as u64 {
        weights[value as usize]
    } else {
        0
    }
}

// An interpolation is not 0, and a byte value at most 255.
pub fn allowed(kind: Field, value: u64) -> bool
    ensures { result ≡ allows kind value }
{
    match kind {
        Field::Interpolation => 0 < value,
        Field::ByteValue => value <= 255,
        Field::Verb | Field::SpatialFlag | Field::Plain | Field::Coordinate => true,
    }
}

// How many of the numbers below `size` are negative ones in a field of this kind: half of them if it is signed, else none. A coordinate is signed, and nothing else is.
pub fn negatives_of(kind: Field, size: u64) -> u64
    ensures { result ≡ pick (signed kind) (size / 2) 0 }
{
    if kind == Field::Coordinate {
        size / 2
    } else {
        0
    }
}

// How many of n fields of w bits stand in a body of this length, from a place on.
fn fitting(len: usize, at: BitPlace, width: usize, count: usize) -> usize
    requires { (at.0 ≤ 8 * len) × (len < 2 ^ 60) × (1 ≤ width) × (width ≤ 32) × (count < 2 ^ 32) }
    ensures { result ≡ min count ((8 * len - at.0) / width) }
{
    let bits = len * 8 - at.0;
    if count * width <= bits {
        count
    } else {
        bits / width
    }
}

// Do fields of this kind and width show whatever their bits are?
fn shows_all(kind: Field, width: u64) -> bool
    ensures { result ≡ shows_all kind width }
{
    match kind {
        Field::Interpolation => false,
        Field::ByteValue => width <= 8,
        Field::Verb | Field::SpatialFlag | Field::Plain | Field::Coordinate => true,
    }
}

// The fields that stand in the body, laid over the table: how many signed fields they announce; or how many stand before the first that is not allowed, and how many these announce. What the loop goes by is taken out of the
// reader before it, since a store into the table would have it loaded again.
fn lay_fields(
    kind: Field,
    width: u64,
    there: usize,
    reader: &mut Reader<'_>,
) -> Result<usize, (usize, usize)>
    requires { Room reader.old × (1 ≤ width) × (width ≤ 32) × (there < 2 ^ 32) × (reader.old.place.0 + there * width ≤ 8 * length reader.old.body.now) × (signed kind ≡ false) }
    ensures { Kept reader.old reader.new × LaysFields (order_of reader.old.order) kind width reader.old.body.now reader.old.table.now reader.old.index reader.old.place.0 there reader.new.table.now result }
{
    let weights = weights_of(kind);
    let (order, body, first, from) = (reader.order, reader.body, reader.place.0, reader.index);
    let table = &mut *reader.table;
    let mut sum = 0;
    for i in 0..there {
        let value = bits::fields::field(order, body, BitPlace(first + i * width as usize), width);
        if !allowed(kind, value) {
            return Err((i, sum));
        }
        put(table, from + i, value);
        sum += weight(&weights, value);
    }
    Ok(sum)
}

impl Reader<'_> {
    // After so many fields one is not allowed (16).
    fn stop(&mut self, passed: usize) -> Reason
        requires { self.old.index + passed < 2 ^ 64 }
        ensures { Stops self.old self.new passed result }
    {
        self.index += passed;
        Reason::UnlistedValue
    }

    // Behind the fields that stand in the body, `there` of n; one that does not is 13.
    fn pass(&mut self, width: usize, there: usize, count: usize) -> Result<(), Reason>
        requires { Passable self.old width there count }
        ensures { Passes self.old self.new width there count result }
    {
        self.index += there;
        self.place = BitPlace(self.place.0 + there * width);
        if there < count {
            return Err(Reason::ItemPastTheBody);
        }
        Ok(())
    }

    // n fields of w bits that are not signed: the first that runs past the body is 13, the first that is not allowed 16. How many signed fields they announce is told, after a refusal too.
    pub fn fields(&mut self, kind: Field, width: u64, count: usize) -> Result<usize, Stopped>
        requires { Room self.old × (1 ≤ width) × (width ≤ 32) × (count < 2 ^ 32) × (signed kind ≡ false) }
        ensures reads { Reads self.old self.new (reason_told result) (times count (field_of kind width)) }
        ensures counts { (sum_told result ≡ announced kind (run (order_of self.old.order) self.old.body.now (times count (field_of kind width)) self.old.place.0).shown) × (sum_told result ≤ 6 * count) }
    {
        let step = width as usize;
        let there = fitting(self.body.len(), self.place, step, count);
        match lay_fields(kind, width, there, self) {
            Ok(announced) => match self.pass(step, there, count) {
                Ok(()) => Ok(announced),
                Err(why) => Err(Stopped { why, announced }),
            },
            Err((passed, announced)) => {
                let why = self.stop(passed);
                Err(Stopped { why, announced })
            }
        }
    }

    // n fields of w bits that show whatever their bits are: so only those are read that stand in the body and that there is room for. Whether they are signed is asked once.
    fn all_fields(&mut self, kind: Field, width: u64, count: usize) -> Result<(), Reason>
        requires { Room self.old × (1 ≤ width) × (width ≤ 32) × (count < 2 ^ 32) × (shows_all kind width ≡ true) }
        ensures { Reads self.old self.new result (times count (field_of kind width)) }
    {
        let step = width as usize;
        let whole = fitting(self.body.len(), self.place, step, count);
        let size = 1u64 << width;
        let negatives = negatives_of(kind, size);
        let (order, body, first, from) = (self.order, self.body, self.place.0, self.index);
        let table = &mut *self.table;
        for i in 0..room_for(table.len(), from, whole) {
            let raw = bits::fields::field(order, body, BitPlace(first + i * step), width);
            table[from + i] = bits::fields::with_sign(raw, size, negatives);
        }
        self.pass(step, whole, count)
    }

    // A width, and n fields of it.
    pub fn scaled(&mut self, kind: Field, count: usize) -> Result<(), Reason>
        requires { Room self.old × (count < 2 ^ 32) }
        ensures { Reads self.old self.new result (one_of ItemOf.width ▹ λ width. times count (field_of kind (the width))) }
    {
        let width = bits::fields::read_width(self.order, self.body, self.place)?;
        self.show(width);
        if shows_all(kind, width.value) {
            return self.all_fields(kind, width.value, count);
        }
        self.fields(kind, width.value, count)?;
        Ok(())
    }
}
