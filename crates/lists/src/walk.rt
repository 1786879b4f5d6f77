// What a walk goes by.
ghost use Rattle.std.specs.Prelude.{◌≡◌, length};

use bits::Order;
use classes::Class;

// The classes of the 1,024 codes, which were made once for all lists, and the bit order of the bodies.
#[derive(Clone, Copy)]
pub struct Walk<'a> {
    pub classes: &'a [Class],
    pub order: Order,
    pub ghost full: { length classes.now ≡ 1024 },
}
