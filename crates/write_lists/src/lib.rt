// Tag lists, written from the numbers of a lent table. An opaque tag is written whole, its header first, since its length is its first number. What
// stands in another tag is put first, behind the bytes kept for its header, and then the header before it (`write_heads::close`). So a container's
// body is not walked again to measure it: a byte moves at most once for each depth, and a body that claims the long header does not move for it.
#![tactic(auto)]

ghost use Rattle.std.specs.Prelude.{◌≡◌, false, ◌+◌, ◌-◌, ◌≤◌, ◌<◌, length, get_or, drop};
ghost use Rattle.format.specs.WritingFiles.{claims, unwalk_list};
ghost use Rattle.bits.specs.Places.{InEither, order_of};
ghost use Rattle.classes.specs.Classes.{ends};
ghost use Rattle.classes.specs.declared.Class.TheVariants.{Opaque};
ghost use Rattle.tags.specs.Lent.{class_in, classes_in, Tabled};
ghost use Rattle.sink.specs.Lain.{longest, lies, lain_as};
ghost use Rattle.write_heads.specs.Heads.{kept_bytes};
ghost use Rattle.write_lists.specs.Stood.{over, stood_as};
ghost use Rattle.write_lists.specs.Tags.{hidden, values_in, list_by, too_deep, begun, shut as shut_by, head_at, ValuesEnd};

use bits::{BytePlace, Order};
use classes::Class;
use sink::Impossible;

// Where the writing of tags has come to: the next byte place, and the index of the next number.
#[derive(Clone, Copy, Debug, PartialEq, Eq)]
pub struct Reached {
    pub place: BytePlace,
    pub index: usize,
}

// The class of a code.
fn class_of(classes: &[Class], code: u32) -> Class
    requires { code < length classes.now }
    ensures { result ≡ class_in classes.now code }
{
    classes[code as usize]
}

// The values of a tag that is not opaque, by its class.
fn write_tag_values(
    order: Order,
    class: Class,
    code: u32,
    values: &[u64],
    out: &mut [u8],
    at: BytePlace,
) -> Result<BytePlace, Impossible>
    requires { (at.0 ≤ longest) × (hidden class ≡ false) }
    ensures { lain_as out.new result ≡ lies out.old at.0 (values_in (order_of order) class code values.now) }
{
    match class {
        // There is none here: see `write_opaque_tag`.
        Class::Opaque => Err(Impossible),
        Class::End => if values.len() == 0 {
            Ok(at)
        } else {
            Err(Impossible)
        },
        Class::Container => write_bodies::write_plain(order, code, values, out, at),
        Class::Fixed => write_bodies::write_items(order, code, values, out, at),
        Class::Attributes => write_bodies::write_body(order, code, values, out, at),
    }
}

// Whether the tag at an index claims the long header: its state, which comes after its code, is above 1.
fn claims_long(table: &[u64], index: usize) -> bool
    requires { index < length table.now }
    ensures { result ≡ claims (get_or table.now (index + 1) 0) }
{
    let rest = table.len() - index;
    if rest < 2 {
        return false;
    }
    1 < table[index + 1]
}

// Where the values of the tag at an index end, if the table has all of them and its state is one of its class.
fn values_end(class: Class, claimed: bool, table: &[u64], index: usize) -> Result<usize, Impossible>
    requires { index < length table.now }
    ensures { ValuesEnd claimed class table.now index result }
{
    let rest = table.len() - index;
    if rest < 3 {
        return Err(Impossible);
    }
    let state = table[index + 1];
    let count = table[index + 2];
    if ((rest - 3) as u64) < count {
        return Err(Impossible);
    }
    if state != tags::state(class, claimed) {
        return Err(Impossible);
    }
    Ok(index + 3 + count as usize)
}

// An opaque tag, whole.
fn write_opaque_tag(
    code: u32,
    out: &mut [u8],
    place: BytePlace,
    claimed: bool,
    table: &[u64],
    index: usize,
) -> Result<Reached, Impossible>
    requires { (place.0 ≤ longest) × (index < length table.now) × (code ≡ get_or table.now index 0) × (code < 1024) }
    ensures { InEither (λ o. stood_as out.new result ≡ over out.old place.0 index (shut_by claimed code (begun o claimed Opaque (drop index table.now)))) }
{
    let behind = values_end(Class::Opaque, claimed, table, index)?;
    let first = index + 3;
    let next = write_opaque::write_tag(code, claimed, &table[first..behind], out, place)?;
    Ok(Reached {
        place: next,
        index: behind,
    })
}

// The tag at an index without its header, behind the bytes kept for it; and a container without its list too. Opaque tags are written whole.
fn begin_tag(
    order: Order,
    class: Class,
    code: u32,
    out: &mut [u8],
    place: BytePlace,
    claimed: bool,
    table: &[u64],
    index: usize,
) -> Result<Reached, Impossible>
    requires { (place.0 ≤ longest) × (index < length table.now) × (code ≡ get_or table.now index 0) × (hidden class ≡ false) }
    ensures { stood_as out.new result ≡ over out.old (place.0 + kept_bytes claimed) index (begun (order_of order) claimed class (drop index table.now)) }
{
    let at = place.0 + write_heads::kept(claimed);
    if 16777216 < at {
        return Err(Impossible);
    }
    let behind = values_end(class, claimed, table, index)?;
    let first = index + 3;
    let values = &table[first..behind];
    let stop = write_tag_values(order, class, code, values, out, BytePlace(at))?;
    Ok(Reached {
        place: stop,
        index: behind,
    })
}

// The header of the tag at a place, before what was put behind the bytes kept for it, up to `stop`. The claim is for bodies below 63 bytes.
fn shut(
    out: &mut [u8],
    place: BytePlace,
    claimed: bool,
    code: u32,
    stop: BytePlace,
    behind: usize,
) -> Result<Reached, Impossible>
    requires { (place.0 + kept_bytes claimed ≤ stop.0) × (stop.0 ≤ longest) × (code < 1024) }
    ensures { stood_as out.new result ≡ head_at out.old place.0 claimed code (stop.0 - (place.0 + kept_bytes claimed)) behind }
{
    let from = place.0 + write_heads::kept(claimed);
    if claimed {
        if 62 < stop.0 - from {
            return Err(Impossible);
        }
    }
    let next = write_heads::close(out, place, claimed, code, stop);
    if 16777216 < next.0 {
        return Err(Impossible);
    }
    Ok(Reached {
        place: next,
        index: behind,
    })
}

// Whether a tag of this class is opaque.
fn is_opaque(class: Class) -> bool
    ensures { result ≡ hidden class }
{
    class == Class::Opaque
}

// Whether a list stands in a tag of this class, whose last number this is: in a container, and in one that is a block where its last flag is set.
fn holds_list(class: Class, code: u32, last: u64) -> bool
    ensures { result ≡ list_by class code last }
{
    match class {
        Class::Container => if bodies::is_block(code) {
            last == 1
        } else {
            true
        },
        Class::End | Class::Opaque | Class::Fixed | Class::Attributes => false,
    }
}

// Whether a tag of this class is a container without a depth for a list.
fn is_too_deep(class: Class, depths: u32) -> bool
    ensures { result ≡ too_deep class depths }
{
    class == Class::Container && depths == 0
}

// Whether a tag of this class ends its list.
fn ends_list(class: Class) -> bool
    ensures { result ≡ ends class }
{
    class == Class::End
}

// The tag list whose numbers start at an index; so many `depths` may lie below it. It calls itself for the list in a container, which comes
// between the container's own values and its header. The classes of the 1,024 codes are lent: they were made once, for all lists.
pub fn write_list(
    classes: &[Class],
    order: Order,
    depths: u32,
    out: &mut [u8],
    at: BytePlace,
    table: &[u64],
    from: usize,
) -> Result<Reached, Impossible>
    requires { Tabled classes.now × (at.0 ≤ longest) × (from ≤ length table.now) }
    ensures { stood_as out.new result ≡ over out.old at.0 from (unwalk_list (order_of order) (classes_in classes.now) depths (drop from table.now)) }
{
    let mut place = at;
    let mut index = from;
    while index < table.len() {
        let number = table[index];
        if 1023 < number {
            return Err(Impossible);
        }
        let code = number as u32;
        let class = class_of(classes, code);
        let claimed = claims_long(table, index);
        if is_opaque(class) {
            let whole = write_opaque_tag(code, out, place, claimed, table, index)?;
            place = whole.place;
            index = whole.index;
            continue;
        }
        if is_too_deep(class, depths) {
            return Err(Impossible);
        }
        let begun = begin_tag(order, class, code, out, place, claimed, table, index)?;
        let mut stop = begun.place;
        let mut last = begun.index;
        if holds_list(class, code, table[begun.index - 1]) {
            let inside = write_list(
                classes,
                order,
                depths - 1,
                out,
                begun.place,
                table,
                begun.index,
            )?;
            stop = inside.place;
            last = inside.index;
        }
        let wrote = shut(out, place, claimed, code, stop, last)?;
        if ends_list(class) {
            return Ok(wrote);
        }
        place = wrote.place;
        index = wrote.index;
    }
    Err(Impossible)
}
