// Parts of one kind in turn.
ghost use Rattle.std.specs.Prelude.{◌≡◌, ◌*◌, ◌<◌, ◌^◌};
ghost use Rattle.format.specs.Formats.{Format, times};
ghost use Rattle.format.specs.Items.{float, string};
ghost use Rattle.items.specs.Kinds.{format_of};
ghost use Rattle.items.specs.declared.Item.TheVariants.{Time};
ghost use Rattle.table.specs.Readers.{Reads, Room};

use crate::{Reader, room_for};
use bits::{BitPlace, Number};
use items::{Item, Spelled};
use reasons::Reason;

// What may stand several times in turn: an item, a String, or what the crates above make of these.
pub trait Part {
    // What the definitions read.
    ghost format: { Self → Format };

    fn read(&self, reader: &mut Reader<'_>) -> Result<(), Reason>
        requires { Room reader.old }
        ensures { Reads reader.old reader.new result (format self.now) };
}

impl Part for Item {
    ghost format = { format_of };

    fn read(&self, reader: &mut Reader<'_>) -> Result<(), Reason> {
        reader.item(*self)?;
        Ok(())
    }
}

impl Reader<'_> {
    // n parts, one by one.
    pub fn in_turn<P: Part>(&mut self, part: &P, count: usize) -> Result<(), Reason>
        requires { Room self.old }
        ensures { Reads self.old self.new result (times count (P.format part.now)) }
    {
        for _ in 0..count {
            part.read(self)?;
        }
        Ok(())
    }
}

impl Reader<'_> {
    // n Times: as `in_turn` reads them, but nothing asks each for its kind, and only the first is aligned: each ends on a whole byte.
    pub fn times(&mut self, count: usize) -> Result<(), Reason>
        requires { Room self.old }
        ensures { Reads self.old self.new result (times count (format_of Time)) }
    {
        // Where there is no Time, nothing is skipped.
        if count == 0 {
            return Ok(());
        }
        let mut place = bits::align(self.order, self.body, self.place)?;
        self.place = place.bit;
        for _ in 0..count {
            let Spelled { value, next } = items::read_time(self.body, place)?;
            self.show(Number {
                value,
                next: next.bit,
            });
            place = next;
        }
        Ok(())
    }

    // n Floats. Where all of them stand on whole bytes they show whatever these are, so only those are read that there is room for.
    pub fn floats(&mut self, count: usize) -> Result<(), Reason>
        requires { Room self.old × (count < 2 ^ 32) }
        ensures { Reads self.old self.new result (times count float) }
    {
        let start = bits::next_byte(self.place);
        let end = start.bit.0 + count * 32;
        if self.place.0 != start.bit.0 || self.body.len() * 8 < end {
            return self.in_turn(&Item::Float, count);
        }
        let first = start.byte.0;
        let from = self.index;
        let table = &mut *self.table;
        for i in 0..room_for(table.len(), from, count) {
            table[from + i] = items::float_at(self.body, first + 4 * i);
        }
        self.index += count;
        self.place = BitPlace(end);
        Ok(())
    }
}
