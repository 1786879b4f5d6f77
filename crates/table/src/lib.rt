// The lent table. A number is stored only where there is room, so one engine serves the run that counts and the run that fills.
#![tactic(auto)]

ghost use Rattle.std.specs.Prelude.{◌≡◌, ◌+◌, ◌-◌, ◌*◌, ◌<◌, ◌≤◌, [], ◌∷◌, min, set, length, IfOk};
ghost use Rattle.format.specs.Formats.{item as one_of, Item as ItemOf};
ghost use Rattle.format.specs.Items.{run};
ghost use Rattle.items.specs.Kinds.{format_of};
ghost use Rattle.table.specs.Readers.{Reads, Room, Shown};
ghost use Rattle.bits.specs.Places.{order_of};

pub mod fields;
pub mod in_turn;
mod reader;
pub mod text;

use bits::Number;
pub use in_turn::Part;
use items::Item;
pub use reader::Reader;
use reasons::Reason;
pub use text::Text;

// Stores a value where there is room for it.
pub fn put<T: Copy>(lent: &mut [T], index: usize, value: T)
    ensures { lent.new ≡ set lent.old index value }
{
    if index < lent.len() {
        lent[index] = value;
    }
}

// How many of n numbers from an index on a table of len numbers has room for.
pub fn room_for(len: usize, index: usize, count: usize) -> usize
    ensures { result ≡ min count (len - index) }
{
    count.min(len.saturating_sub(index))
}

impl Reader<'_> {
    // A number is shown, and the next item starts behind it.
    pub fn show(&mut self, number: Number)
        requires { Room self.old × (self.old.place.0 < number.next.0) × (number.next.0 ≤ 8 * length self.old.body.now) }
        ensures { Shown self.old self.new number }
    {
        put(self.table, self.index, number.value);
        self.index += 1;
        self.place = number.next;
    }

    // Zero bits up to the next whole byte (15).
    pub fn align(&mut self) -> Result<(), Reason>
        requires { Room self.old }
        ensures { Reads self.old self.new result (one_of ItemOf.align) }
    {
        let start = bits::align(self.order, self.body, self.place)?;
        self.place = start.bit;
        Ok(())
    }

    // One item: its number is shown, and told.
    pub fn item(&mut self, kind: Item) -> Result<u64, Reason>
        requires { Room self.old }
        ensures reads { Reads self.old self.new result (format_of kind) }
        ensures shown { IfOk result (λ value. (run (order_of self.old.order) self.old.body.now (format_of kind) self.old.place.0).shown ≡ value ∷ []) }
    {
        let number = items::read_item(self.order, kind, self.body, self.place)?;
        self.show(number);
        Ok(number.value)
    }
}
