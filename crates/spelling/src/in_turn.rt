// Parts of one kind in turn.
ghost use Rattle.std.specs.Prelude.{◌≡◌, ◌+◌, ◌-◌, ◌*◌, ◌<◌, ◌≤◌, length, IfOk};
ghost use Rattle.format.specs.Formats.{Format, times};
ghost use Rattle.format.specs.Items.{string};
ghost use Rattle.items.specs.Kinds.{format_of};
ghost use Rattle.items.specs.declared.Item.TheVariants.{Byte, Time};
ghost use Rattle.bits.specs.Places.{InEither};
ghost use Rattle.sink.specs.Laying.{mk};
ghost use Rattle.spelling.specs.Spellings.{written_to};
ghost use Rattle.spelling.specs.Writing.{ran};
ghost use Rattle.spelling.specs.Writer.{Writes};

use crate::numbers::spell_var;
use crate::writer::Writer;
use crate::{on_byte, spell_next};
use items::Item;
use sink::Impossible;

// What a writer can write, as its format, from any index on.
pub trait PartAnywhere {
    ghost format: { Self → Format };

    fn write_anywhere(&self, writer: &mut Writer) -> Result<(), Impossible>
        ensures writes { Writes writer.old writer.new result (format self.now) };
}

// n such parts.
pub fn write_all_anywhere<P: PartAnywhere>(
    part: &P,
    count: usize,
    writer: &mut Writer,
) -> Result<(), Impossible>
    ensures writes { Writes writer.old writer.new result (times count (P.format part.now)) }
{
    for _ in 0..count {
        part.write_anywhere(writer)?;
    }
    Ok(())
}

// What a writer can write, as its format, from an index that is at most behind its last value: who writes it may go by that.
pub trait Part {
    ghost format: { Self → Format };

    fn write(&self, writer: &mut Writer) -> Result<(), Impossible>
        requires { writer.old.index ≤ length writer.old.values.now }
        ensures writes { Writes writer.old writer.new result (format self.now) };
}

// n such parts. The index is so afterwards, too: where no file has one of them, it goes back before that one.
pub fn write_all<P: Part>(part: &P, count: usize, writer: &mut Writer) -> Result<(), Impossible>
    requires { writer.old.index ≤ length writer.old.values.now }
    ensures writes { Writes writer.old writer.new result (times count (P.format part.now)) }
    ensures inside { writer.new.index ≤ length writer.new.values.now }
{
    for _ in 0..count {
        let from = writer.index;
        match part.write(writer) {
            Ok(()) => {}
            Err(refused) => {
                writer.index = from;
                return Err(refused);
            }
        }
    }
    Ok(())
}

// A String.
pub struct Text;

impl PartAnywhere for Text {
    ghost format = { λ _. string };

    fn write_anywhere(&self, writer: &mut Writer) -> Result<(), Impossible> {
        writer.string()
    }
}

// What can be written from any index can be from these.
impl<P: PartAnywhere> Part for P {
    ghost format = { λ part. P.format part };

    fn write(&self, writer: &mut Writer) -> Result<(), Impossible> {
        self.write_anywhere(writer)
    }
}

// n items, one at least, from a whole byte on: they stay on whole bytes.
fn spell_items(
    kind: Item,
    count: usize,
    out: &mut [u8],
    at: usize,
    values: &[u64],
    from: usize,
) -> Result<usize, Impossible>
    requires { (at ≤ 16777216) × (0 < count) }
    ensures writes { InEither (λ o. written_to out.new result (from + count) ≡ ran o values.now (mk out.old (8 * at) 0) from (times count (format_of kind))) }
    ensures within { IfOk result (λ p. (p ≤ 16777216) × (from + count ≤ length values.now)) }
{
    let mut byte = at;
    for i in 0..count {
        byte = spell_next(kind, out, byte, values, from + i)?;
    }
    Ok(byte)
}

// n times. Each number has a spelling, so that of each only the place behind it is judged: no file is longer.
// Stays: one loop with `spell_items` is no plainer, since their step would have to be handed in; apart, no number is asked for its kind and range.
fn spell_times(
    count: usize,
    out: &mut [u8],
    at: usize,
    values: &[u64],
    from: usize,
) -> Result<usize, Impossible>
    requires { (at ≤ 16777216) × (from + count ≤ length values.now) }
    ensures writes { InEither (λ o. written_to out.new result (from + count) ≡ ran o values.now (mk out.old (8 * at) 0) from (times count (format_of Time))) }
    ensures within { IfOk result (λ p. p ≤ 16777216) }
{
    let mut byte = at;
    for i in 0..count {
        let next = spell_var(out, byte, values[from + i], 9, 1)?;
        if 16777216 < next {
            return Err(Impossible);
        }
        byte = next;
    }
    Ok(byte)
}

impl Writer<'_> {
    // n items: once on a whole byte, they stay on whole bytes.
    pub fn items(&mut self, kind: Item, count: usize) -> Result<(), Impossible>
        ensures writes { Writes self.old self.new result (times count (format_of kind)) }
    {
        if count == 0 {
            return Ok(());
        }
        let values = self.values;
        let from = self.index;
        let start = sink::align(self.order, self.out, self.sink);
        let end = spell_items(kind, count, self.out, start.byte.0, values, from)?;
        self.sink = on_byte(end);
        self.index = from + count;
        Ok(())
    }

    // n times, one at least.
    pub fn times(&mut self, count: usize) -> Result<(), Impossible>
        requires { 0 < count }
        ensures writes { Writes self.old self.new result (times count (format_of Time)) }
    {
        let values = self.values;
        let from = self.index;
        if values.len().saturating_sub(from) < count {
            return Err(Impossible);
        }
        let start = sink::align(self.order, self.out, self.sink);
        let end = spell_times(count, self.out, start.byte.0, values, from)?;
        self.sink = on_byte(end);
        self.index = from + count;
        Ok(())
    }
}

#[cfg(test)]
mod tests {
    use super::*;
    use bits::Order;

    // A byte, by a part that counts the values that are left: it may, since its writer's index is one of theirs.
    struct Counting;

    impl Part for Counting {
        ghost format = { λ _. format_of Byte };

        fn write(&self, writer: &mut Writer) -> Result<(), Impossible> {
            let left = writer.values.len() - writer.index;
            let _ = left;
            writer.one(Item::Byte)
        }
    }

    #[test]
    fn strings_and_then_bytes(rt: HostRuntime) {
        let mut out = [255; 8];
        let mut writer = Writer {
            order: Order::HighFirst,
            out: &mut out,
            sink: on_byte(0),
            values: &[1, 97, 2, 98, 99, 7, 8],
            index: 0,
        };
        assert!(rt; write_all(&Text, 2, &mut writer).is_ok());
        assert_eq!(rt; writer.index, 5);
        assert!(rt; write_all(&Counting, 2, &mut writer).is_ok());
        assert_eq!(rt; writer.index, 7);
        assert_eq!(rt; out, [97, 0, 98, 99, 0, 7, 8, 255]);
    }

    #[test]
    fn index_before_the_part_that_no_file_has(rt: HostRuntime) {
        let mut writer = Writer {
            order: Order::LowFirst,
            out: &mut [0; 4],
            sink: on_byte(0),
            values: &[7, 8, 256],
            index: 0,
        };
        assert!(rt; write_all(&Counting, 3, &mut writer).is_err());
        assert_eq!(rt; writer.index, 2);
    }
}
