// Keyframed content: five parts, or six where hasSpatial is set, each starting on a whole byte.
ghost use Rattle.std.specs.Prelude.{◌≡◌, ◌*◌, ◌<◌, ◌≤◌, ◌^◌};
ghost use Rattle.format.specs.Formats.{nothing, ◌▸◌};
ghost use Rattle.format.specs.Tests.{pick};
ghost use Rattle.format.specs.Items.{run, scaled};
ghost use Rattle.format.specs.Bodies.{values as values_of, interpolations as interpolations_of, how_many, aligned, spatial, has_spatial, keyframed};
ghost use Rattle.bits.specs.Places.{order_of};
ghost use Rattle.table.specs.Readers.{Reads, Room};
ghost use Rattle.table.specs.Fields.{sum_told, reason_told};
ghost use Rattle.attributes.specs.Rows.{kind_of, type_of};
ghost use Rattle.values.specs.Parts.{frames_of};

use crate::{read_announcing, read_frame_values};
use attributes::{DataType, Kind};
use items::Item;
use reasons::Reason;
use table::Reader;
use table::fields::{Field, Stopped};

// The interpolations of n frames, UB[2] each, if the kind has them. A Bezier frame announces four easing numbers for each of its curves.
fn read_interpolations(reader: &mut Reader<'_>, kind: Kind, frames: usize) -> Result<usize, Stopped>
    requires { Room reader.old × (frames ≤ 4096) }
    ensures reads { Reads reader.old reader.new (reason_told result) (aligned ▸ interpolations_of (kind_of kind) frames) }
    ensures counts { (sum_told result ≡ how_many 2 (run (order_of reader.old.order) reader.old.body.now (aligned ▸ interpolations_of (kind_of kind) frames) reader.old.place.0).shown * 4) × (sum_told result ≤ 6 * frames) }
{
    reader.align()?;
    if attributes::has_interpolations(kind) {
        return reader.fields(Field::Interpolation, 2, frames);
    }
    Ok(0)
}

// The values part.
fn read_values_part(
    reader: &mut Reader<'_>,
    kind: Kind,
    what: DataType,
    count: usize,
) -> Result<(), Reason>
    requires { Room reader.old × (count ≤ 4097) }
    ensures { Reads reader.old reader.new result (aligned ▸ values_of (kind_of kind) (type_of what) count) }
{
    reader.align()?;
    read_frame_values(reader, kind, what, count)
}

// The easing part: a width, which stands always, and n signed fields of it.
fn read_easing(reader: &mut Reader<'_>, count: usize) -> Result<(), Reason>
    requires { Room reader.old × (count < 2 ^ 32) }
    ensures { Reads reader.old reader.new result (aligned ▸ scaled count) }
{
    reader.align()?;
    reader.scaled(Field::Coordinate, count)
}

// The spatial part, only where hasSpatial is set: two flags for each frame, a width, which stands always, and a Point for each flag that is set.
fn read_spatial(reader: &mut Reader<'_>, flag: u64, frames: usize) -> Result<(), Reason>
    requires { Room reader.old × (frames ≤ 4096) }
    ensures { Reads reader.old reader.new result (pick (has_spatial flag) (spatial frames) nothing) }
{
    if flag != 7 {
        return Ok(());
    }
    reader.align()?;
    read_announcing(reader, Field::SpatialFlag, 1, frames * 2)
}

// n + 1 times, n + 1 values, and what eases them: the easing of the Bezier frames, and the spatial part.
fn read_frames(
    reader: &mut Reader<'_>,
    kind: Kind,
    what: DataType,
    flag: u64,
    frames: usize,
    easing: usize,
) -> Result<(), Reason>
    requires { Room reader.old × (frames ≤ 4096) × (easing < 2 ^ 32) }
    ensures { Reads reader.old reader.new result (frames_of (kind_of kind) (type_of what) flag frames easing) }
{
    reader.times(frames + 1)?;
    read_values_part(reader, kind, what, frames + 1)?;
    read_easing(reader, easing)?;
    read_spatial(reader, flag, frames)
}

// Keyframed content, with 1 to 4,096 frames, of an attribute with this flag number.
pub fn read_keyframed(
    reader: &mut Reader<'_>,
    kind: Kind,
    what: DataType,
    flag: u64,
) -> Result<(), Reason>
    requires { Room reader.old }
    ensures { Reads reader.old reader.new result (keyframed (kind_of kind) (type_of what) flag) }
{
    let frames = reader.item(Item::Count(1))? as usize;
    let beziers = read_interpolations(reader, kind, frames)?;
    let easing = beziers * attributes::curves(kind, what);
    read_frames(reader, kind, what, flag, frames, easing)
}
