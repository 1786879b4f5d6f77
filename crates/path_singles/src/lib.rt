// Path coordinates as the bits of singles, in place of their steps (C-23): among the values of a tag that is read.
#![tactic(auto)]

ghost use Rattle.std.specs.Prelude.{◌≡◌, suc, ◌+◌, ◌≤◌, ◌<◌, ◌^◌, min, map, length, get_or, drop};
ghost use Rattle.format.specs.Items.{coordinates as coordinates_in};
ghost use Rattle.path_singles.specs.Coordinates.{as_single, is_beyond, any_beyond, paths, frames, behind_flag};
ghost use Rattle.path_singles.specs.Converting.{left, from as from_index, over, first_of, behind_of};

pub mod blocks;
pub mod tags;

use answers::Answer;
use table::fields::Field;

// The index that lies so many numbers behind another; no index is past the end.
pub(crate) fn up_to(index: usize, count: u64, len: usize) -> usize
    requires { index ≤ len }
    ensures { result ≡ min (index + count) len }
{
    let room = (len - index) as u64;
    index + count.min(room) as usize
}

// A coordinate, its bits; one beyond the range of singles stays. Is it beyond?
fn convert_step(step: &mut u64) -> bool
    ensures { (step.new ≡ as_single step.old) × (result ≡ is_beyond step.old) }
{
    match singles::of_number(*step) {
        Answer::Accepted(bits) => {
            *step = bits;
            false
        }
        Answer::Refused(_, _) => true,
    }
}

// The coordinates of a path. Is one beyond?
fn convert_steps(steps: &mut [u64]) -> bool
    ensures { left steps.new result ≡ left (map as_single steps.old) (any_beyond steps.old) }
{
    let mut beyond = false;
    for step in steps.iter_mut() {
        beyond |= convert_step(step);
    }
    beyond
}

// How many coordinates verbs have.
fn count_coordinates(verbs: &[u64]) -> u64
    requires { length verbs.now < 2 ^ 32 }
    ensures { result ≡ coordinates_in verbs.now }
{
    let weights = table::fields::weights_of(Field::Verb);
    let mut count = 0;
    for &verb in verbs {
        count += table::fields::weight(&weights, verb) as u64;
    }
    count
}

// After a path: the index behind it, and whether one of its coordinates is beyond.
#[derive(Clone, Copy, Debug, PartialEq, Eq)]
pub struct Path {
    pub behind: usize,
    pub beyond: bool,
}

// The path at an index: verb count, verbs, width, coordinates.
fn convert_path(values: &mut [u64], at: usize) -> Path
    requires { (at < length values.old) × (length values.old < 2 ^ 32) }
    ensures converted { left values.new result.beyond ≡ over values.old (first_of values.old at) (behind_of values.old at) }
    ensures ended { result.behind ≡ behind_of values.old at }
{
    let len = values.len();
    let verbs = at + 1;
    let verb_end = up_to(verbs, values[at], len);
    let count = count_coordinates(&values[verbs..verb_end]);
    let start = up_to(verb_end, 1, len);
    let behind = up_to(start, count, len);
    let beyond = convert_steps(&mut values[start..behind]);
    Path { behind, beyond }
}

// So many paths in turn, from an index on.
fn convert_paths(values: &mut [u64], at: usize, count: u64) -> bool
    requires { (at ≤ length values.old) × (length values.old < 2 ^ 32) }
    ensures { left values.new result ≡ from_index values.old at (paths count (drop at values.old)) }
{
    let mut beyond = false;
    let mut index = at;
    for _ in 0..count {
        if values.len() <= index {
            break;
        }
        let path = convert_path(values, index);
        beyond |= path.beyond;
        index = path.behind;
    }
    beyond
}

// Keyframed paths, whose count stands at an index: as many interpolations, and a time and a path more.
fn convert_frames(values: &mut [u64], at: usize) -> bool
    requires { (at ≤ length values.old) × (length values.old < 2 ^ 32) }
    ensures { left values.new result ≡ from_index values.old at (frames (drop at values.old)) }
{
    let len = values.len();
    if len <= at {
        return false;
    }
    let count = values[at];
    if len as u64 <= count {
        return false;
    }
    let first = up_to(at + 1, count + count + 1, len);
    convert_paths(values, first, count + 1)
}

// The number at an index, 0 past the end.
fn number_at(values: &[u64], index: usize) -> u64
    ensures { result ≡ get_or values.now index 0 }
{
    values.get(index).copied().unwrap_or(0)
}

// A path attribute, whose flag number stands at an index: no content, one path, or keyframes.
pub(crate) fn convert_attribute(values: &mut [u64], at: usize) -> bool
    requires { length values.old < 2 ^ 32 }
    ensures { left values.new result ≡ behind_flag at values.old }
{
    match number_at(values, at) {
        0 => false,
        1 => convert_paths(values, at + 1, 1),
        _ => convert_frames(values, at + 1),
    }
}
