// Keyframed content, written: five parts, or six where hasSpatial is set, each starting on a whole byte.
ghost use Rattle.std.specs.Prelude.{◌<◌, ◌≤◌, ◌^◌};
ghost use Rattle.format.specs.Tests.{pick};
ghost use Rattle.format.specs.Formats.{nothing, ◌▸◌};
ghost use Rattle.format.specs.Items.{scaled};
ghost use Rattle.format.specs.Bodies.{values as values_of, interpolations as interpolations_of, aligned, spatial, has_spatial, keyframed};
ghost use Rattle.attributes.specs.Rows.{kind_of, type_of};
ghost use Rattle.values.specs.Parts.{frames_of, keyframes_of};
ghost use Rattle.spelling.specs.Writer.{Writes};
ghost use Rattle.write_values.specs.Easing.{Eases};

use crate::{write_announcing, write_frame_values};
use attributes::{DataType, Kind};
use sink::Impossible;
use spelling::writer::Writer;
use table::fields::Field;

// The interpolations of n frames, UB[2] each, if the kind has them. A Bezier frame announces four easing numbers for each of its curves: how many they are for one curve is the answer.
fn write_interpolations(kind: Kind, frames: usize, writer: &mut Writer) -> Result<usize, Impossible>
    requires { frames ≤ 4096 }
    ensures writes { Writes writer.old writer.new result (aligned ▸ interpolations_of (kind_of kind) frames) }
    ensures counts { Eases writer.old writer.new frames result }
{
    writer.skip();
    if attributes::has_interpolations(kind) {
        return writer.fields(Field::Interpolation, 2, frames);
    }
    Ok(0)
}

// The values part.
fn write_values_part(
    kind: Kind,
    what: DataType,
    count: usize,
    writer: &mut Writer,
) -> Result<(), Impossible>
    requires { count ≤ 4097 }
    ensures { Writes writer.old writer.new result (aligned ▸ values_of (kind_of kind) (type_of what) count) }
{
    writer.skip();
    write_frame_values(kind, what, count, writer)
}

// The easing part: a width, which stands always, and n signed fields of it.
fn write_easing(count: usize, writer: &mut Writer) -> Result<(), Impossible>
    requires { count < 2 ^ 32 }
    ensures { Writes writer.old writer.new result (aligned ▸ scaled count) }
{
    writer.skip();
    writer.scaled(Field::Coordinate, count)
}

// The spatial part, only where hasSpatial is set: two flags for each frame, a width, which stands always, and a Point for each flag that is set.
fn write_spatial(flag: u64, frames: usize, writer: &mut Writer) -> Result<(), Impossible>
    requires { frames ≤ 4096 }
    ensures { Writes writer.old writer.new result (pick (has_spatial flag) (spatial frames) nothing) }
{
    if flag != 7 {
        return Ok(());
    }
    writer.skip();
    write_announcing(Field::SpatialFlag, 1, frames * 2, writer)
}

// The easing of the Bezier frames, and the spatial part.
fn write_eased(
    flag: u64,
    frames: usize,
    easing: usize,
    writer: &mut Writer,
) -> Result<(), Impossible>
    requires { (frames ≤ 4096) × (easing < 2 ^ 32) }
    ensures { Writes writer.old writer.new result ((aligned ▸ scaled easing) ▸ pick (has_spatial flag) (spatial frames) nothing) }
{
    write_easing(easing, writer)?;
    write_spatial(flag, frames, writer)
}

// n + 1 times, n + 1 values, and what eases them.
fn write_frames(
    kind: Kind,
    what: DataType,
    flag: u64,
    frames: usize,
    easing: usize,
    writer: &mut Writer,
) -> Result<(), Impossible>
    requires { (frames ≤ 4096) × (easing < 2 ^ 32) }
    ensures { Writes writer.old writer.new result (frames_of (kind_of kind) (type_of what) flag frames easing) }
{
    let count = frames + 1;
    writer.times(count)?;
    write_values_part(kind, what, count, writer)?;
    write_eased(flag, frames, easing, writer)
}

// What follows the count of n frames.
fn write_keyframes(
    kind: Kind,
    what: DataType,
    flag: u64,
    frames: usize,
    writer: &mut Writer,
) -> Result<(), Impossible>
    requires { frames ≤ 4096 }
    ensures { Writes writer.old writer.new result (keyframes_of (kind_of kind) (type_of what) flag frames) }
{
    let beziers = write_interpolations(kind, frames, writer)?;
    let easing = beziers * attributes::curves(kind, what);
    write_frames(kind, what, flag, frames, easing, writer)
}

// Keyframed content, with 1 to 4,096 frames, of an attribute with this flag number.
pub fn write_keyframed(
    kind: Kind,
    what: DataType,
    flag: u64,
    writer: &mut Writer,
) -> Result<(), Impossible>
    ensures { Writes writer.old writer.new result (keyframed (kind_of kind) (type_of what) flag) }
{
    let frames = writer.count(1)?;
    write_keyframes(kind, what, flag, frames, writer)
}
