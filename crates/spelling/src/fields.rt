// Runs of bit fields: verbs, coordinates, interpolations, keyframed Bools and bytes, easing.
ghost use Rattle.std.specs.Prelude.{◌≡◌, ◌/◌, ◌^◌, ◌<◌, ◌≤◌, true, false, length};
ghost use Rattle.format.specs.Formats.{item, Item, times, the, ◌▹◌};
ghost use Rattle.bits.specs.Places.{order_of};
ghost use Rattle.table.specs.Fields.{field_of, signed};
ghost use Rattle.sink.specs.Laying.{at as under, lay};
ghost use Rattle.spelling.specs.Writing.{Fine};
ghost use Rattle.spelling.specs.Writer.{Writes, Counts, Announces, WritesLessOne};
ghost use Rattle.spelling.specs.Fields.{bare, all_fields, Judges, dig_all};

use crate::number_at;
use crate::writer::Writer;
use bits::{BitPlace, BytePlace, Order};
use sink::{Impossible, Sink};
use table::fields::Field;

// Are numbers bare fields of w bits: plain ones, or coordinates? Nothing is asked of them but that their bits can have them. The sum wraps negative ones back, so that they are the least: 0 up to `size`.
fn all_bare(kind: Field, width: usize, numbers: &[u64]) -> bool
    requires { (1 ≤ width) × (width ≤ 32) × (bare kind ≡ true) }
    ensures { result ≡ all_fields kind width numbers.now }
{
    let size = sink::power(width);
    let negatives = table::fields::negatives_of(kind, size);
    for value in numbers {
        if size <= std::num::wrapping_add_u64(*value, negatives) {
            return false;
        }
    }
    true
}

// The same, and that they announce nothing.
fn judge_bare(kind: Field, width: usize, numbers: &[u64]) -> Result<usize, Impossible>
    requires { (1 ≤ width) × (width ≤ 32) × (bare kind ≡ true) }
    ensures { Judges kind width numbers.now result }
{
    if all_bare(kind, width, numbers) {
        Ok(0)
    } else {
        Err(Impossible)
    }
}

// Are numbers UB fields of w bits and a kind, and how many signed fields do they announce?
fn judge_unsigned(kind: Field, width: usize, numbers: &[u64]) -> Result<usize, Impossible>
    requires { (width ≤ 32) × (length numbers.now < 2 ^ 32) × (signed kind ≡ false) }
    ensures { Judges kind width numbers.now result }
{
    let mut sum = 0;
    let size = sink::power(width);
    let weights = table::fields::weights_of(kind);
    for number in numbers {
        let value = *number;
        if size <= value {
            return Err(Impossible);
        }
        if !table::fields::allowed(kind, value) {
            return Err(Impossible);
        }
        sum += table::fields::weight(&weights, value);
    }
    Ok(sum)
}

// The same of fields of any kind.
fn judge(kind: Field, width: usize, numbers: &[u64]) -> Result<usize, Impossible>
    requires { (1 ≤ width) × (width ≤ 32) × (length numbers.now < 2 ^ 32) }
    ensures { Judges kind width numbers.now result }
{
    match kind {
        Field::Plain | Field::Coordinate => judge_bare(kind, width, numbers),
        Field::Verb | Field::Interpolation | Field::SpatialFlag | Field::ByteValue =>
            judge_unsigned(kind, width, numbers),
    }
}

// The lowest w bits of numbers, where there is a byte to put them to: bits are gathered, and 32 of them put at once.
fn gather_fields(order: Order, width: usize, numbers: &[u64], out: &mut [u8], sink: Sink) -> Sink
    requires { Fine sink × (1 ≤ width) × (width ≤ 32) × (length numbers.now < 2 ^ 32) × (sink.place.0 / 8 < length out.old) }
    ensures { under out.new result ≡ lay (order_of order) (under out.old sink) (dig_all (order_of order) width numbers.now) }
{
    let size = sink::power(width);
    let mut byte = sink.place.0 / 8;
    let mut held = sink.place.0 % 8;
    let mut waiting = sink.part;
    for value in numbers {
        waiting = sink::glue(order, waiting, held, *value % size, width);
        held += width;
        let full = 32 <= held;
        if full {
            held -= 32;
            let (word, rest) = sink::split(order, waiting, 32, held);
            sink::put_word(order, out, byte, word);
            waiting = rest;
            byte += 4;
        }
    }
    let place = bits::first_bit(BytePlace(byte));
    sink::put_bits(order, out, Sink { place, part: 0 }, waiting, held)
}

// The same for any output. Places only grow, so the last one alone is judged, by the caller.
fn put_fields(order: Order, width: usize, numbers: &[u64], out: &mut [u8], sink: Sink) -> Sink
    requires { Fine sink × (1 ≤ width) × (width ≤ 32) × (length numbers.now < 2 ^ 32) }
    ensures { under out.new result ≡ lay (order_of order) (under out.old sink) (dig_all (order_of order) width numbers.now) }
{
    let count = numbers.len();
    // Without a field what waits goes on waiting, past the end too.
    if count == 0 {
        return sink;
    }
    let at = sink.place.0;
    // Behind a field that is past the end nothing waits: so the run that measures puts nothing together.
    if out.len() <= at / 8 {
        let place = BitPlace(at + count * width);
        return Sink { place, part: 0 };
    }
    gather_fields(order, width, numbers, out, sink)
}

impl Writer<'_> {
    // n fields of w bits: all are judged, and then put. How many signed fields they announce is the answer.
    pub fn fields(&mut self, kind: Field, width: usize, count: usize) -> Result<usize, Impossible>
        requires { (1 ≤ width) × (width ≤ 32) × (count < 2 ^ 32) }
        ensures writes { Writes self.old self.new result (times count (field_of kind width)) }
        ensures counts { Announces kind self.old self.new count result }
    {
        let values = self.values;
        let from = self.index;
        // Behind the last value no number is left, and a run of none can be written.
        let left = &values[from.min(values.len())..];
        if left.len() < count {
            return Err(Impossible);
        }
        let numbers = &left[..count];
        let announced = judge(kind, width, numbers)?;
        let last = put_fields(self.order, width, numbers, self.out, self.sink);
        self.go_on(last, from + count)?;
        Ok(announced)
    }

    // A number from 1 to 2^n: one less than it, in n bits. The number is the answer.
    fn less_one(&mut self, bits: usize) -> Result<usize, Impossible>
        requires { bits ≤ 32 }
        ensures writes { WritesLessOne bits self.old self.new result }
        ensures counts { Counts 1 (2 ^ bits) self.old self.new result }
    {
        let values = self.values;
        let from = self.index;
        let number = number_at(values, from)?;
        if number == 0 {
            return Err(Impossible);
        }
        let less = number - 1;
        if sink::power(bits) <= less {
            return Err(Impossible);
        }
        let next = sink::put_bits(self.order, self.out, self.sink, less, bits);
        self.go_on(next, from + 1)?;
        Ok(number as usize)
    }

    // A width.
    fn width(&mut self) -> Result<usize, Impossible>
        ensures writes { Writes self.old self.new result (item Item.width) }
        ensures counts { Counts 1 32 self.old self.new result }
    {
        self.less_one(5)
    }

    // The length of a list of dashes.
    pub fn dash_length(&mut self) -> Result<usize, Impossible>
        ensures writes { Writes self.old self.new result (item Item.dash_length) }
        ensures counts { Counts 1 8 self.old self.new result }
    {
        self.less_one(3)
    }

    // A width, and n fields of it.
    pub fn scaled(&mut self, kind: Field, count: usize) -> Result<(), Impossible>
        requires { count < 2 ^ 32 }
        ensures writes { Writes self.old self.new result (item Item.width ▹ λ w. times count (field_of kind (the w))) }
    {
        let width = self.width()?;
        self.fields(kind, width, count)?;
        Ok(())
    }
}
