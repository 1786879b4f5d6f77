// The path attributes of a block, found by the rows of its attribute list.
ghost use Rattle.std.specs.Prelude.{◌≡◌, ◌≤◌, ◌<◌, ◌^◌, length};
ghost use Rattle.format.specs.Bits.{high};
ghost use Rattle.attributes.specs.Rows.{attribute_of, attributes_in, attributes_of};
ghost use Rattle.path_singles.specs.Coordinates.{is_path, earlier, block};
ghost use Rattle.path_singles.specs.Converting.{left};

use crate::convert_attribute;
use attributes::{Attribute, DataType, Kind};
use bits::Order;
use table::Reader;

// Paths are Simple attributes.
fn is_path(attribute: Attribute) -> bool
    ensures { result ≡ is_path (attribute_of attribute) }
{
    matches!(
        attribute,
        Attribute {
            kind: Kind::Simple,
            data_type: DataType::Path,
        }
    )
}

// How many numbers the attributes before a row show: the flags of the block are read, and the contents of those attributes.
fn numbers_before(rows: &[Attribute], row: usize, body: &[u8]) -> usize
    requires { (length rows.now ≤ 12) × (row ≤ length rows.now) × (length body.now < 2 ^ 60) }
    ensures { result ≡ length (earlier high body.now (attributes_in rows.now) row) }
{
    let order = Order::HighFirst;
    let Ok(flags) = attributes::read_flags(order, rows, body) else {
        return 0;
    };
    let mut reader = Reader {
        order,
        body,
        place: flags.next,
        table: &mut [],
        index: 0,
    };
    // What a refusal stops was shown before it.
    let _ = bodies::blocks::read_contents(&mut reader, &rows[..row], flags.value);
    reader.index
}

// The values of a tag with this code and this body.
pub fn convert_block(code: u32, body: &[u8], values: &mut [u64]) -> bool
    requires { (length body.now < 2 ^ 60) × (length values.old < 2 ^ 32) }
    ensures { left values.new result ≡ block high body.now (attributes_of code) (attributes_of code) 0 values.old }
{
    let rows = attributes::blocks::block_of(code);
    let mut beyond = false;
    for (row, &attribute) in rows.iter().enumerate() {
        // Few attributes are paths, so only for these the rows before are read again.
        if is_path(attribute) {
            let flag = numbers_before(rows, row, body);
            beyond |= convert_attribute(values, flag);
        }
    }
    beyond
}
