// The opacity of a body that was judged, and its keyframes.
ghost use Rattle.std.specs.Prelude.{◌≡◌, false, suc, ◌+◌, ◌-◌, ◌*◌, ◌≤◌, ◌<◌};
ghost use Rattle.format.specs.Formats.{times as times_of};
ghost use Rattle.format.specs.Items.{run, time as time_of};
ghost use Rattle.bits.specs.Places.{order_of};
ghost use Rattle.opacity.specs.Opacity.{fraction, from_opacity, shown_at, in_frame, at_frame, keyframed_at};
ghost use Rattle.opacity.specs.Answers.{opacity_of};
ghost use Rattle.opacity.specs.Inner.{place_in, Framed, mask_frames, TimesAt, PartsAt, Stands, noted, Walked, Within};

use crate::Fraction;
use crate::places::Mask;
use bits::BitPlace;
use bits::fields::field;
use items::Item;
use reasons::Reason;

// Times and frames are at most this.
const LAST_TIME: u64 = 4294967295;

// A keyframe by its number, with its start and its end.
#[derive(Clone, Copy, Debug, PartialEq, Eq)]
pub struct Span {
    pub frame: usize,
    pub start: u64,
    pub end: u64,
}

// What a walk over the times has seen: a time above the limit, one that does not rise, and the keyframe that covers t.
#[derive(Clone, Copy, Debug, PartialEq, Eq)]
pub struct Seen {
    pub late: bool,
    pub falls: bool,
    pub covering: Option<Span>,
}

// The walk over all times: what it saw, the first time and the last, and the place after them.
#[derive(Clone, Copy, Debug, PartialEq, Eq)]
pub struct Walk {
    pub seen: Seen,
    pub first: u64,
    pub last: u64,
    pub next: BitPlace,
}

// What is seen with one keyframe more. It covers its start and not its end.
fn note(seen: Seen, span: Span, t: u64) -> Seen
    ensures { result ≡ noted seen span t }
{
    let late = seen.late | (LAST_TIME < span.end);
    let falls = seen.falls | (span.end <= span.start);
    if span.start <= t && t < span.end {
        return Seen {
            late,
            falls,
            covering: Some(span),
        };
    }
    Seen {
        late,
        falls,
        covering: seen.covering,
    }
}

// Between two values: not reduced.
fn linear(from: u64, to: u64, span: Span, t: u64) -> Fraction
    requires { (from ≤ 255) × (to ≤ 255) × (span.start ≤ t) × (t < span.end) × (span.end ≤ 4294967295) }
    ensures { fraction result.above result.below ≡ fraction (from * (span.end - t) + to * (t - span.start)) (span.end - span.start) }
{
    Fraction {
        above: from * (span.end - t) + to * (t - span.start),
        below: span.end - span.start,
    }
}

// The keyframes of a mask whose times were walked over: how many they are, and where their interpolations and their values stand.
#[derive(Clone, Copy)]
pub struct Frames<'a> {
    pub mask: Mask<'a>,
    pub count: usize,
    pub kinds: BitPlace,
    pub values: BitPlace,
    pub ghost parts: { PartsAt (order_of mask.order) mask.body.now (mask_frames (order_of mask.order) mask.body.now) count kinds.0 values.0 },
}

impl Frames<'_> {
    // Value k of n + 1: behind their width they stand in a row.
    fn value_at(&self, k: usize) -> u64
        requires { k ≤ self.now.count }
        ensures { (result ≡ (mask_frames (order_of self.now.mask.order) self.now.mask.body.now).value k) × (result ≤ 255) }
    {
        let width = field(self.mask.order, self.mask.body, self.values, 5) + 1;
        let place = self.values.0 + 5 + width as usize * k;
        field(self.mask.order, self.mask.body, BitPlace(place), width)
    }

    // In the keyframe that covers t, by its interpolation: hold, linear, or else Bezier.
    fn in_frame(&self, span: Span, t: u64) -> Result<Fraction, Reason>
        requires { Within (mask_frames (order_of self.now.mask.order) self.now.mask.body.now) self.now.count t span }
        ensures { opacity_of result ≡ in_frame (mask_frames (order_of self.now.mask.order) self.now.mask.body.now) t span.frame }
    {
        let frame = span.frame;
        let place = BitPlace(self.kinds.0 + 2 * frame);
        let kind = field(self.mask.order, self.mask.body, place, 2);
        let from = self.value_at(frame);
        if kind == 3 {
            return Ok(Fraction {
                above: from,
                below: 1,
            });
        }
        if kind == 1 {
            let to = self.value_at(frame + 1);
            return Ok(linear(from, to, span, t));
        }
        Err(Reason::FrameInBezier)
    }

    // Before the first start the first value, at or after the last end the last value.
    fn at_frame(&self, walk: Walk, t: u64) -> Result<Fraction, Reason>
        requires { Walked (mask_frames (order_of self.now.mask.order) self.now.mask.body.now) self.now.count t walk.seen walk.first walk.last × (walk.seen.late ≡ false) }
        ensures { opacity_of result ≡ at_frame (mask_frames (order_of self.now.mask.order) self.now.mask.body.now) t }
    {
        if t < walk.first {
            return Ok(Fraction {
                above: self.value_at(0),
                below: 1,
            });
        }
        if walk.last <= t {
            return Ok(Fraction {
                above: self.value_at(self.count),
                below: 1,
            });
        }
        let span = walk.seen.covering.unwrap();
        self.in_frame(span, t)
    }
}

impl Mask<'_> {
    // A walk over the times of n keyframes, each read once: the end of one is the start of the next.
    fn walk_times(&self, at: BitPlace, count: usize, t: u64) -> Walk
        requires { TimesAt (order_of self.now.order) self.now.body.now (mask_frames (order_of self.now.order) self.now.body.now) count at.0 × (count ≤ 4096) }
        ensures saw { Walked (mask_frames (order_of self.now.order) self.now.body.now) count t result.seen result.first result.last }
        ensures ends { result.next.0 ≡ place_in (run (order_of self.now.order) self.now.body.now (times_of (suc count) time_of) at.0).ended }
    {
        let one = self.item_at(Item::Time, at);
        let first = one.value;
        let mut start = first;
        let mut place = one.next;
        let mut seen = Seen {
            late: LAST_TIME < first,
            falls: false,
            covering: None,
        };
        for frame in 0..count {
            let one = self.item_at(Item::Time, place);
            let end = one.value;
            seen = note(seen, Span { frame, start, end }, t);
            start = end;
            place = one.next;
        }
        Walk {
            seen,
            first,
            last: start,
            next: place,
        }
    }

    // n keyframes, whose interpolations stand at the place: a time or t above the limit (26), times that don't rise strictly (27), and then the frame.
    fn stand_at(&self, kinds: BitPlace, count: usize, t: u64) -> Result<Fraction, Reason>
        requires { Stands (order_of self.now.order) self.now.body.now (mask_frames (order_of self.now.order) self.now.body.now) count kinds.0 }
        ensures { opacity_of result ≡ keyframed_at (mask_frames (order_of self.now.order) self.now.body.now) t }
    {
        if LAST_TIME < t {
            return Err(Reason::TimeTooLate);
        }
        let place = kinds.0 + 2 * count;
        let walk = self.walk_times(BitPlace(place), count, t);
        if walk.seen.late {
            return Err(Reason::TimeTooLate);
        }
        if walk.seen.falls {
            return Err(Reason::TimesDoNotRise);
        }
        let behind = bits::next_byte(walk.next);
        let frames = Frames {
            mask: *self,
            count,
            kinds,
            values: behind.bit,
        };
        frames.at_frame(walk, t)
    }

    // Keyframed content: its count, and then the interpolations, on a whole byte.
    fn keyframed(&self, at: BitPlace, t: u64) -> Result<Fraction, Reason>
        requires { Framed (order_of self.now.order) self.now.body.now at.0 }
        ensures { opacity_of result ≡ keyframed_at (mask_frames (order_of self.now.order) self.now.body.now) t }
    {
        let counted = self.item_at(Item::Count(1), at);
        let behind = bits::next_byte(counted.next);
        self.stand_at(behind.bit, counted.value as usize, t)
    }

    // By the opacity's flag number: the default, one value, or keyframes.
    pub(crate) fn opacity(&self, t: u64) -> Result<Fraction, Reason>
        ensures { opacity_of result ≡ shown_at (from_opacity (order_of self.now.order) self.now.body.now) t }
    {
        let found = self.find();
        let flag = found.flag;
        if flag == 0 {
            return Ok(Fraction {
                above: 255,
                below: 1,
            });
        }
        if flag == 1 {
            let one = self.item_at(Item::Byte, found.content);
            return Ok(Fraction {
                above: one.value,
                below: 1,
            });
        }
        self.keyframed(found.content, t)
    }
}
