// The values of a tag, written as the items of a body: each method of the writer goes on from where it stands, and says that no file has the values where they cannot be written.
#![tactic(auto)]

ghost use Rattle.std.specs.Prelude.{◌≡◌, ◌+◌, ◌*◌, ◌^◌, ◌%◌, ◌<◌, ◌≤◌, length, IfOk};
ghost use Rattle.items.specs.Kinds.{format_of};
ghost use Rattle.items.specs.declared.Item.TheVariants.{Count};
ghost use Rattle.format.specs.Bodies.{aligned};
ghost use Rattle.format.specs.Items.{skipped};
ghost use Rattle.format.specs.Possible.{this};
ghost use Rattle.format.specs.WritingItems.{dig};
ghost use Rattle.bits.specs.Places.{InEither, order_of};
ghost use Rattle.sink.specs.Lain.{lain_as};
ghost use Rattle.sink.specs.Laying.{mk, at as under, lay, Holds};
ghost use Rattle.spelling.specs.Ends.{concluded};
ghost use Rattle.spelling.specs.Spellings.{Numbered, written_to};
ghost use Rattle.spelling.specs.Writing.{here, ends, ran, limit, Fine};
ghost use Rattle.spelling.specs.Writer.{state, seen_of, Onward, Writes, Counts, done};

pub mod fields;
pub mod in_turn;
mod numbers;
pub mod text;
pub mod writer;

use crate::writer::Writer;
use bits::BytePlace;
use items::Item;
use sink::{Impossible, Sink};

// The number at an index of the values.
pub(crate) fn number_at(values: &[u64], index: usize) -> Result<u64, Impossible>
    ensures { Numbered values.now index result }
{
    values.get(index).copied().ok_or(Impossible)
}

// A sink on a whole byte: nothing waits.
pub fn on_byte(byte: usize) -> Sink
    requires { byte ≤ 16777216 }
    ensures { (result.place.0 ≡ 8 * byte) × (result.part ≡ 0) × Fine result }
{
    Sink {
        place: bits::first_bit(BytePlace(byte)),
        part: 0,
    }
}

// One item in its range, from a whole byte on: the byte place behind it.
pub fn spell_next(
    kind: Item,
    out: &mut [u8],
    at: usize,
    values: &[u64],
    from: usize,
) -> Result<usize, Impossible>
    requires { at ≤ 16777216 }
    ensures writes { InEither (λ o. written_to out.new result (from + 1) ≡ ran o values.now (mk out.old (8 * at) 0) from (format_of kind)) }
    ensures within { IfOk result (λ p. p ≤ 16777216) }
{
    let value = number_at(values, from)?;
    if items::in_range(kind, value).is_err() {
        return Err(Impossible);
    }
    let next = numbers::spell_item(kind, out, at, value)?;
    // No file is longer.
    if 16777216 < next {
        return Err(Impossible);
    }
    Ok(next)
}

impl Writer<'_> {
    // On from this sink, with the values from an index on. No file is longer than 2^27 bits.
    pub(crate) fn go_on(&mut self, sink: Sink, behind: usize) -> Result<(), Impossible>
        requires { Holds sink.place.0 sink.part }
        ensures onward { Onward self.old self.new }
        ensures ended { seen_of self.new result ≡ ends (under self.old.out.now sink) behind }
        ensures placed { IfOk result (λ _. self.new.index ≡ behind) }
    {
        if 134217728 < sink.place.0 {
            return Err(Impossible);
        }
        self.sink = sink;
        self.index = behind;
        Ok(())
    }

    // One item: in its range, on a whole byte.
    pub fn one(&mut self, kind: Item) -> Result<(), Impossible>
        ensures writes { Writes self.old self.new result (format_of kind) }
    {
        let start = sink::align(self.order, self.out, self.sink);
        let values = self.values;
        let next = spell_next(kind, self.out, start.byte.0, values, self.index)?;
        self.sink = on_byte(next);
        self.index += 1;
        Ok(())
    }

    // A count, which is the answer.
    pub fn count(&mut self, least: u8) -> Result<usize, Impossible>
        ensures writes { Writes self.old self.new result (format_of (Count least)) }
        ensures counts { Counts least 4096 self.old self.new result }
    {
        let values = self.values;
        let index = self.index;
        self.one(Item::Count(least))?;
        Ok(values[index] as usize)
    }

    // The next number, which has no bits here: a flag number, say.
    pub fn take(&mut self) -> Result<u64, Impossible>
        ensures onward { Onward self.old self.new }
        ensures stays { state self.new ≡ state self.old }
        ensures taken { Numbered self.old.values.now self.old.index result }
        ensures placed { IfOk result (λ _. self.new.index ≡ self.old.index + 1) }
    {
        let index = self.index;
        let number = number_at(self.values, index)?;
        self.index = index + 1;
        Ok(number)
    }

    // Zero bits up to the next whole byte.
    pub fn skip(&mut self)
        ensures writes { Writes self.old self.new done aligned }
        ensures laid { state self.new ≡ lay (order_of self.old.order) (state self.old) (dig (order_of self.old.order) (skipped self.old.sink.place.0) 0) }
        ensures placed { self.new.index ≡ self.old.index }
    {
        let start = sink::align(self.order, self.out, self.sink);
        self.sink = Sink {
            place: start.bit,
            part: 0,
        };
    }

    // The end of a body: all n values are used up, and zero bits go up to a whole byte, which is the answer.
    pub fn conclude(&mut self, count: usize) -> Result<BytePlace, Impossible>
        ensures onward { Onward self.old self.new }
        ensures ended { lain_as self.new.out.now result ≡ concluded (order_of self.old.order) count (this (here (state self.old) self.old.index)) }
    {
        if self.index != count {
            return Err(Impossible);
        }
        let end = sink::align(self.order, self.out, self.sink);
        Ok(end.byte)
    }
}
