// The first CompositionAttributes of a file that isn't opaque: a walk that stops there, without judging the rest.
#![tactic(auto)]

ghost use Rattle.std.specs.Prelude.{◌≡◌, ◌+◌, ◌-◌, ◌*◌, ◌≤◌, ◌<◌, ◌^◌, length};
ghost use Rattle.std.specs.Option.{IfSome};
ghost use Rattle.std.proofs.lemmas.List.Edits.{sets};
ghost use Rattle.format.specs.Bodies.{composition_attributes, fixed, read_body};
ghost use Rattle.format.specs.FileAndTags.{head, walk_list};
ghost use Rattle.bits.specs.Places.{order_of};
ghost use Rattle.tags.specs.Shown.{values_of, list_of};
ghost use Rattle.lists.specs.Lists.{owner_of};
ghost use Rattle.tags.specs.Lent.{classes_in, Tabled};
ghost use Rattle.canvas.specs.Canvas.{canvas_of, canvas_file};
ghost use Rattle.canvas.specs.Looking.{refusal, is_looked, judged_by, Valued, numbered, judged_at, Judges, judged_in, Looks, zeros, answered, Answers};

use bits::{BitPlace, BytePlace, Order};
use classes::{Class, Scope};
use headers::Header;
use lists::{Fault, TagList, Walk};
use reasons::Reason;
use table::Reader;

// A refusal: its reason, and the second number, which is a place in the file, or 0 for what is refused before any tag.
#[derive(Clone, Copy, Debug, PartialEq, Eq)]
pub struct Refusal {
    pub reason: Reason,
    pub number: u64,
}

// The answer: the seven values of the tag, or that there is no such tag, or a refusal; and how many tag headers were read.
#[derive(Clone, Copy, Debug, PartialEq, Eq)]
pub struct CanvasSize {
    pub size: Result<Option<[u64; 7]>, Refusal>,
    pub headers: u64,
}

// A part of a list's room, or of the file: from `start` up to `stop`.
#[derive(Clone, Copy, Debug, PartialEq, Eq)]
pub struct Span {
    pub start: BytePlace,
    pub stop: BytePlace,
}

// A tag whose header passes and whose body is good: the tag that is looked for, with its body; End; a container, with its list, which is still to be
// read; or another tag may follow.
#[derive(Clone, Copy, Debug, PartialEq, Eq)]
pub enum Judged {
    Canvas(Span),
    Last(BytePlace),
    Open(Span),
    Next(BytePlace),
}

// What is refused before any tag has 0 for its second number.
impl From<Reason> for Refusal {
    ghost from_gives = { λ reason told. told ≡ refusal reason 0 };

    fn from(reason: Reason) -> Refusal {
        Refusal { reason, number: 0 }
    }
}

impl From<Fault> for Refusal {
    ghost from_gives = { λ fault told. told ≡ refusal fault.why fault.place.0 };

    fn from(fault: Fault) -> Refusal {
        Refusal {
            reason: fault.why,
            number: fault.place.0 as u64,
        }
    }
}

// A CompositionAttributes that isn't opaque.
fn is_looked(class: Class, code: u32) -> bool
    ensures { result ≡ is_looked class code }
{
    code == 3 && class != Class::Opaque
}

// A tag whose body is good, by its class, and by where its list starts in its body, if it has one.
// Stays: beside `lists::next_step` it knows the tag that is looked for; a type around the steps of lists would be no plainer.
fn by_class(class: Class, code: u32, body: Span, list: Option<BytePlace>) -> Judged
    requires { IfSome list (λ place. body.start.0 + place.0 < 2 ^ 60) }
    ensures { result ≡ judged_by class code body list }
{
    if is_looked(class, code) {
        return Judged::Canvas(body);
    }
    match list {
        Some(place) => Judged::Open(Span {
            start: BytePlace(body.start.0 + place.0),
            stop: body.stop,
        }),
        None if class == Class::End => Judged::Last(body.stop),
        None => Judged::Next(body.stop),
    }
}

// The values of a tag are judged, by its class, and nothing is stored: where its list starts in its body, if it has one; or a reason.
// Stays: beside `tags::read_tag_values`, which packs opaque bodies; a second caller takes what is in line in the reader's loop out of it (docs/SPEED.md).
fn judge_values(
    order: Order,
    class: Class,
    code: u32,
    body: &[u8],
) -> Result<Option<BytePlace>, Reason>
    requires { length body.now ≤ 16777216 }
    ensures { Valued (values_of (order_of order) class code body.now).ended (list_of (order_of order) class code body.now) result }
{
    let mut reader = Reader {
        order,
        body,
        place: BitPlace(0),
        table: &mut [],
        index: 0,
    };
    match class {
        Class::Opaque | Class::End => Ok(None),
        Class::Container => bodies::read_container(&mut reader, code),
        Class::Fixed | Class::Attributes => {
            bodies::read_leaf(&mut reader, class == Class::Attributes, code)?;
            Ok(None)
        }
    }
}

// The tag of this class and header at a place of the room.
fn judge_body(
    order: Order,
    class: Class,
    header: Header,
    room: &[u8],
    place: BytePlace,
) -> Result<Judged, Reason>
    requires { (place.0 + header.size + header.length ≤ length room.now) × (length room.now ≤ 16777216) }
    ensures { numbered result ≡ (judged_at (order_of order) class room.now place.0 (head header.code header.length header.size)).judged }
{
    let start = place.0 + header.size as usize;
    let stop = start + header.length as usize;
    let list = judge_values(order, class, header.code, &room[start..stop])?;
    let body = Span {
        start: BytePlace(start),
        stop: BytePlace(stop),
    };
    Ok(by_class(class, header.code, body, list))
}

// The tag at a place of a list: its header, which is counted if it passes, by the class of its code; and then its own values.
fn judge_tag(
    walk: &Walk<'_>,
    list: &TagList<'_>,
    place: BytePlace,
    headers: &mut usize,
) -> Result<Judged, Reason>
    requires { (place.0 ≤ length list.now.room.now) × (headers.old < 2 ^ 60) }
    ensures { Judges headers.old headers.new result (judged_in (order_of walk.now.order) walk.now.classes.now list.now.depths list.now.room.now place.0) }
{
    let passed = headers::read_head(walk.classes, list.depths, list.room, place)?;
    *headers += 1;
    judge_body(walk.order, passed.class, passed.header, list.room, place)
}

// The body of the tag that is looked for, as a part of the file, if a list or one inside it has that tag. The headers that pass are counted.
fn look_in(walk: &Walk<'_>, list: &TagList<'_>, headers: &mut usize) -> Result<Option<Span>, Fault>
    requires tabled { Tabled walk.now.classes.now }
    requires few { headers.old ≤ (9 - list.now.depths) * 16777216 }
    ensures { Looks (order_of walk.now.order) list.now.at.0 list.now.room.now headers.old headers.new result (canvas_of (walk_list (order_of walk.now.order) (classes_in walk.now.classes.now) list.now.depths (owner_of list.now.owner) list.now.at.0 list.now.room.now)) }
{
    let mut place = BytePlace(0);
    while place.0 < list.room.len() {
        let tag = BytePlace(list.at.0 + place.0);
        match judge_tag(walk, list, place, headers) {
            Err(why) => return Err(Fault { why, place: tag }),
            Ok(Judged::Canvas(body)) => {
                return Ok(Some(Span {
                    start: BytePlace(list.at.0 + body.start.0),
                    stop: BytePlace(list.at.0 + body.stop.0),
                }));
            }
            Ok(Judged::Last(stop)) => {
                list.ends_at(stop)?;
                return Ok(None);
            }
            Ok(Judged::Next(stop)) => place = stop,
            Ok(Judged::Open(part)) => {
                let inner = TagList {
                    owner: Some(tag),
                    depths: list.depths - 1,
                    at: BytePlace(list.at.0 + part.start.0),
                    room: &list.room[part.start.0..part.stop.0],
                };
                let found = look_in(walk, &inner, headers)?;
                if found.is_some() {
                    return Ok(found);
                }
                place = part.stop;
            }
        }
    }
    Err(list.refuses(Reason::ListWithoutEnd, list.room.len()))
}

// The seven values of a body that was judged before.
fn values_in(order: Order, body: &[u8]) -> [u64; 7]
    requires { length body.now < 2 ^ 60 }
    ensures { result ≡ sets zeros 0 (read_body (order_of order) (fixed composition_attributes) body.now).shown }
{
    let mut values = [0u64; 7];
    let mut reader = Reader {
        order,
        body,
        place: BitPlace(0),
        table: &mut values,
        index: 0,
    };
    // It was judged, so nothing is refused now.
    let _ = bodies::read_body(&mut reader, 3);
    values
}

// The values of the first CompositionAttributes that isn't opaque, with the headers counted that were read for it.
fn seek(
    level: u32,
    order: u32,
    file: &[u8],
    headers: &mut usize,
) -> Result<Option<[u64; 7]>, Refusal>
    requires { headers.old ≡ 0 }
    ensures { Answers headers.new result (canvas_file order level file.now) }
{
    let named = reader::start(level, order, file)?;
    let mut classes = [Class::Opaque; 1024];
    classes::fill_first(Scope::All, level, &mut classes);
    let walk = Walk {
        classes: &classes,
        order: named,
    };
    let list = TagList {
        owner: None,
        depths: 8,
        at: BytePlace(9),
        room: &file[9..],
    };
    match look_in(&walk, &list, headers)? {
        Some(body) => Ok(Some(values_in(named, &file[body.start.0..body.stop.0]))),
        None => Ok(None),
    }
}

// The canvas size of a file: the values of its first CompositionAttributes that isn't opaque, from a walk that stops there.
pub fn canvas(level: u32, order: u32, file: &[u8]) -> CanvasSize
    ensures { answered result ≡ canvas_file order level file.now }
{
    let mut headers = 0;
    let size = seek(level, order, file, &mut headers);
    CanvasSize {
        size,
        headers: headers as u64,
    }
}
