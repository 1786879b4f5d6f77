// Tag lists: the tags of a list one after the other, each container's own list by a call to the same function.
#![tactic(auto)]

ghost use Rattle.std.specs.Prelude.{◌≡◌, ◌+◌, ◌<◌, ◌≤◌, ◌^◌, length};
ghost use Rattle.format.specs.FileAndTags.{blame as blame_of, head, walk_list};
ghost use Rattle.lists.specs.Lists.{owner_of, walk_over, next_by, tag_at, tag_in, last_of, Bounds, Steps, Walks, ended_by};
ghost use Rattle.tags.specs.Lent.{classes_in, Tabled};
ghost use Rattle.bits.specs.Places.{order_of};

mod tag_list;
mod walk;

use bits::{BitPlace, BytePlace};
use classes::Class;
use headers::Header;
use reasons::Reason;
use table::Reader;
pub use tag_list::TagList;
pub use walk::Walk;

// Why a list is refused: a reason, and its second number, a place in the file.
#[derive(Clone, Copy, Debug, PartialEq, Eq)]
pub struct Fault {
    pub why: Reason,
    pub place: BytePlace,
}

// The lent table and the lent tag table, each with its next index.
#[derive(Drop)]
pub struct Lent<'a> {
    pub table: &'a mut [u64],
    pub index: usize,
    pub rows: &'a mut [u32],
    pub row: usize,
}

// After a tag that ends at this place of the room: another tag may follow; it was End. Or it is a container, whose list has the room from the first place up to the second.
#[derive(Clone, Copy, Debug, PartialEq, Eq)]
pub enum Step {
    Next(BytePlace),
    Last(BytePlace),
    Open(BytePlace, BytePlace),
}

// The second number of 7 and 11: the container's place; at depth 0 the place where it happened.
pub fn blame(owner: Option<BytePlace>, place: BytePlace) -> BytePlace
    ensures { result.0 ≡ blame_of (owner_of owner) place.0 }
{
    owner.unwrap_or(place)
}

impl TagList<'_> {
    // 7 and 11, at a place of the room.
    pub fn refuses(&self, why: Reason, place: usize) -> Fault
        requires { place ≤ length self.now.room.now }
        ensures { (result.why ≡ why) × (result.place.0 ≡ blame_of (owner_of self.now.owner) (self.now.at.0 + place)) }
    {
        Fault {
            why,
            place: blame(self.owner, BytePlace(self.at.0 + place)),
        }
    }

    // After End the room is used up, else 11.
    pub fn ends_at(&self, stop: BytePlace) -> Result<(), Fault>
        requires { stop.0 ≤ length self.now.room.now }
        ensures { ended_by result ≡ last_of self.now.owner self.now.at.0 stop.0 (length self.now.room.now) }
    {
        if stop.0 == self.room.len() {
            Ok(())
        } else {
            Err(self.refuses(Reason::BytesAfterEnd, stop.0))
        }
    }
}

// What comes after the numbers of a tag without a list, by its class.
fn next_step(class: Class, stop: BytePlace) -> Step
    ensures { result ≡ next_by class stop }
{
    if class == Class::End {
        Step::Last(stop)
    } else {
        Step::Next(stop)
    }
}

impl Walk<'_> {
    // The tag of this class and header at a place of a list: its row, and its own numbers.
    fn show_tag(
        &self,
        list: &TagList<'_>,
        class: Class,
        place: BytePlace,
        header: Header,
        lent: &mut Lent<'_>,
    ) -> Result<Step, Reason>
        requires { (place.0 + header.size + header.length ≤ length list.now.room.now) × (lent.old.index < 2 ^ 60) × (lent.old.row < 2 ^ 60) }
        ensures { Steps lent.old lent.new result (tag_at (order_of self.now.order) class list.now.depths list.now.at.0 list.now.room.now place.0 lent.old.table.now lent.old.index lent.old.rows.now lent.old.row (head header.code header.length header.size)) }
    {
        let start = place.0 + header.size as usize;
        let stop = start + header.length as usize;
        let tag = BytePlace(list.at.0 + place.0);
        tags::show_row(
            8 - list.depths,
            header.code,
            tag,
            header.size,
            header.length,
            lent.rows,
            lent.row,
        );
        let mut reader = Reader {
            order: self.order,
            body: &list.room[start..stop],
            place: BitPlace(0),
            table: &mut *lent.table,
            index: lent.index,
        };
        let inner = tags::show_tag(&mut reader, class, header.code, header.size)?;
        lent.index = reader.index;
        match inner {
            Some(first) => Ok(Step::Open(BytePlace(start + first.0), BytePlace(stop))),
            None => Ok(next_step(class, BytePlace(stop))),
        }
    }

    // The tag at a place of a list: its header, once; the class of its code; and what it shows, if the header passes.
    fn read_tag(
        &self,
        list: &TagList<'_>,
        place: BytePlace,
        lent: &mut Lent<'_>,
    ) -> Result<Step, Reason>
        requires { (place.0 ≤ length list.now.room.now) × (lent.old.index < 2 ^ 60) × (lent.old.row < 2 ^ 60) }
        ensures { Steps lent.old lent.new result (tag_in (order_of self.now.order) self.now.classes.now list.now.depths list.now.at.0 list.now.room.now place.0 lent.old.table.now lent.old.index lent.old.rows.now lent.old.row) }
    {
        let header = headers::raw_head(list.room, place)?;
        let class = self.classes[header.code as usize];
        let start = place.0 + header.size as usize;
        headers::passes(class, list.depths, list.room.len() - start, header.length)?;
        self.show_tag(list, class, place, header, lent)
    }

    // A list. Its numbers go to the table from its next index on, its rows to the tag table, where there is room.
    pub fn read_list(&self, list: &TagList<'_>, lent: &mut Lent<'_>) -> Result<(), Fault>
        requires tabled { Tabled self.now.classes.now }
        requires bounds { Bounds list.now.depths list.now.at.0 (length list.now.room.now) lent.old.index lent.old.row }
        ensures { Walks lent.old lent.new result (walk_over lent.old.table.now lent.old.index lent.old.rows.now lent.old.row (walk_list (order_of self.now.order) (classes_in self.now.classes.now) list.now.depths (owner_of list.now.owner) list.now.at.0 list.now.room.now)) }
    {
        let mut place = BytePlace(0);
        while place.0 < list.room.len() {
            let tag = BytePlace(list.at.0 + place.0);
            let step = match self.read_tag(list, place, lent) {
                Ok(step) => step,
                Err(why) => return Err(Fault { why, place: tag }),
            };
            lent.row += 5;
            match step {
                Step::Last(stop) => return list.ends_at(stop),
                Step::Next(stop) => place = stop,
                Step::Open(first, stop) => {
                    let inner = TagList {
                        owner: Some(tag),
                        depths: list.depths - 1,
                        at: BytePlace(list.at.0 + first.0),
                        room: &list.room[first.0..stop.0],
                    };
                    self.read_list(&inner, lent)?;
                    place = stop;
                }
            }
        }
        Err(list.refuses(Reason::ListWithoutEnd, list.room.len()))
    }
}
