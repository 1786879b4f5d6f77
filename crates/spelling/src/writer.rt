// The writer of a body's values: where it stands in the lent output, and which of the values comes next.
ghost use Rattle.spelling.specs.Writing.{Fine};

use bits::Order;
use sink::Sink;

// Its sink is one that code may go on with. Its index may be any: behind the last value no number is left. Where a method answers that no file has the values, nothing is said of its output.
#[derive(Drop)]
pub struct Writer<'a> {
    pub order: Order,
    pub out: &'a mut [u8],
    pub sink: Sink,
    pub values: &'a [u64],
    pub index: usize,
    ghost fine: { Fine sink },
}
