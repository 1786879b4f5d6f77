// The opacity of a mask at a frame (C-22). The body is judged once; then the opacity's place is found, and its numbers are cut out where they stand.
#![tactic(auto)]

ghost use Rattle.std.specs.Prelude.{◌≡◌};
ghost use Rattle.opacity.specs.Opacity.{opacity_at};
ghost use Rattle.opacity.specs.Answers.{opacity_of};

mod frames;
mod places;

use crate::places::Mask;
use bits::{BitPlace, Order};
use reasons::Reason;
use table::Reader;

// An exact fraction of two whole numbers.
#[derive(Clone, Copy, Debug, PartialEq, Eq)]
pub struct Fraction {
    pub above: u64,
    pub below: u64,
}

// The opacity of a mask's body at the frame t.
pub fn opacity(order: u32, body: &[u8], t: u64) -> Result<Fraction, Reason>
    ensures { opacity_of result ≡ opacity_at order body.now t }
{
    let order = Order::try_from(order)?;
    if 1152921504606846976 <= body.len() {
        return Err(Reason::BodyNotUsedUp);
    }
    let mut reader = Reader {
        order,
        body,
        place: BitPlace(0),
        table: &mut [],
        index: 0,
    };
    bodies::read_body(&mut reader, 14)?;
    Mask { order, body }.opacity(t)
}
