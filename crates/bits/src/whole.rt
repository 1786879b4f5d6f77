// A whole byte, in both counts.
ghost use Rattle.std.specs.Prelude.{◌≡◌, ◌*◌};

use crate::{BitPlace, BytePlace};

#[derive(Clone, Copy, Debug, PartialEq, Eq)]
pub struct Whole {
    pub byte: BytePlace,
    pub bit: BitPlace,
    // Both counts tell of the same byte.
    pub ghost same: { bit.0 ≡ 8 * byte.0 },
}
