// Where things stand in a mask's body that was judged: what is read here again is there.
ghost use Rattle.std.specs.Prelude.{◌≡◌};
ghost use Rattle.format.specs.Formats.{the};
ghost use Rattle.format.specs.Items.{run};
ghost use Rattle.bits.specs.Places.{PlaceIn, order_of};
ghost use Rattle.items.specs.Kinds.{format_of};
ghost use Rattle.opacity.specs.Inner.{place_in, IsAt, Judged, Finds};

use bits::{BitPlace, Number, Order};
use items::Item;
use table::Reader;

// The body of a mask, in a bit order, that was judged.
#[derive(Clone, Copy)]
pub struct Mask<'a> {
    pub order: Order,
    pub body: &'a [u8],
    pub ghost judged: { Judged (order_of order) body.now },
}

// The opacity's flag number, and the place of its content.
#[derive(Clone, Copy, Debug, PartialEq, Eq)]
pub struct Found {
    pub flag: u64,
    pub content: BitPlace,
}

impl Mask<'_> {
    // One item, which is there.
    pub(crate) fn item_at(&self, kind: Item, at: BitPlace) -> Number
        requires { PlaceIn self.now.body.now at.0 × IsAt (run (order_of self.now.order) self.now.body.now (format_of kind) at.0).ended }
        ensures { (result.value ≡ the (run (order_of self.now.order) self.now.body.now (format_of kind) at.0).shown) × (result.next.0 ≡ place_in (run (order_of self.now.order) self.now.body.now (format_of kind) at.0).ended) }
    {
        items::read_item(self.order, kind, self.body, at).unwrap()
    }

    // The opacity's place: after the flags of all attributes, and the contents of the four before it. Its flag number is the fifth.
    pub(crate) fn find(&self) -> Found
        ensures { Finds (order_of self.now.order) self.now.body.now result.flag result.content.0 }
    {
        let rows = attributes::blocks::block_of(14);
        let flags = attributes::read_flags(self.order, rows, self.body).unwrap();
        let mut reader = Reader {
            order: self.order,
            body: self.body,
            place: flags.next,
            table: &mut [],
            index: 0,
        };
        bodies::blocks::read_contents(&mut reader, &rows[..4], flags.value).unwrap();
        Found {
            flag: flags.value / 4096 % 8,
            content: reader.place,
        }
    }
}
