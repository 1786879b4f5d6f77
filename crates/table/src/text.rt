// Strings.
ghost use Rattle.std.specs.Prelude.{◌+◌, ◌*◌, ◌<◌, ◌^◌, length, IfSome};
ghost use Rattle.format.specs.Items.{string};
ghost use Rattle.bits.specs.Places.{PlaceIn};
ghost use Rattle.table.specs.Readers.{Reads, Room, LaysText};

use crate::{Part, Reader, put, room_for};
use bits::{BitPlace, Whole};
use reasons::Reason;

// The bytes from a whole byte on up to a zero byte, each read once: those that there is room for are stored, the others looked through, and their count, which is known last, is stored before them. How
// many they are, if a zero byte ends them. Whole bytes are the same in either order.
fn lay_text(body: &[u8], at: Whole, table: &mut [u64], from: usize) -> Option<usize>
    requires { PlaceIn body.now at.bit.0 × (from < 13 * 2 ^ 60) }
    ensures laid { LaysText body.now at table.old from table.new result }
    ensures inside { IfSome result (λ count. at.byte.0 + count < length body.now) }
{
    let rest = &body[at.byte.0..];
    let first = from + 1;
    let room = room_for(table.len(), first, rest.len());
    for count in 0..room {
        let byte = rest[count];
        if byte == 0 {
            put(table, from, count as u64);
            return Some(count);
        }
        table[first + count] = u64::from(byte);
    }
    match rest[room..].iter().position(|&byte| byte == 0) {
        Some(more) => {
            put(table, from, (room + more) as u64);
            Some(room + more)
        }
        None => {
            put(table, from, rest.len() as u64);
            None
        }
    }
}

impl Reader<'_> {
    // A String: its length and then its bytes. One that no zero byte ends is cut by the body's end (13).
    pub fn string(&mut self) -> Result<(), Reason>
        requires { Room self.old }
        ensures { Reads self.old self.new result string }
    {
        let start = bits::align(self.order, self.body, self.place)?;
        match lay_text(self.body, start, self.table, self.index) {
            Some(count) => {
                self.index += 1 + count;
                self.place = BitPlace(start.bit.0 + 8 * count + 8);
                Ok(())
            }
            None => {
                self.index += 1 + (self.body.len() - start.byte.0);
                Err(Reason::ItemPastTheBody)
            }
        }
    }
}

// A String, as a part.
#[derive(Clone, Copy)]
pub struct Text;

impl Part for Text {
    ghost format = { λ _. string };

    fn read(&self, reader: &mut Reader<'_>) -> Result<(), Reason> {
        reader.string()
    }
}
