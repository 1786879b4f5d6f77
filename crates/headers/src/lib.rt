// Tag headers: a little-endian 16-bit number, and a 32-bit body length after it where its length is 63.
#![tactic(auto)]

ghost use Rattle.std.specs.Prelude.{◌≡◌, ◌+◌, ◌<◌, ◌≤◌, length, drop, IfOk};
ghost use Rattle.format.specs.FileAndTags.{le16, le32, raw_head};
ghost use Rattle.headers.specs.Heads.{as_head, as_passed, class_here, fault_of, fault_by, head_by};

use bits::BytePlace;
use classes::Class;
use reasons::Reason;

// A tag's header: its code, the length of its body, and its own size, in bytes.
#[derive(Clone, Copy, Debug, PartialEq, Eq)]
pub struct Header {
    pub code: u32,
    pub length: u32,
    pub size: u32,
}

// The little-endian 16-bit number at an index.
fn le16_at(bytes: &[u8], i: usize) -> u16
    requires { i + 2 ≤ length bytes.now }
    ensures { result ≡ le16 (drop i bytes.now) }
{
    u16::from_le_bytes([bytes[i], bytes[i + 1]])
}

// The little-endian 32-bit number at an index.
pub fn le32_at(bytes: &[u8], i: usize) -> u32
    requires { i + 4 ≤ length bytes.now }
    ensures { result ≡ le32 (drop i bytes.now) }
{
    u32::from_le_bytes([bytes[i], bytes[i + 1], bytes[i + 2], bytes[i + 3]])
}

// The header as it stands in a list's room, unless the room's end cuts it (6). The long one takes any length.
pub fn raw_head(room: &[u8], at: BytePlace) -> Result<Header, Reason>
    requires { at.0 ≤ length room.now }
    ensures { (as_head result ≡ raw_head (drop at.0 room.now)) × IfOk result (λ header. header.code < 1024) }
{
    let i = at.0;
    let rest = room.len() - i;
    if rest < 2 {
        return Err(Reason::HeaderCut);
    }
    let number = u32::from(le16_at(room, i));
    let code = number / 64;
    let short = number % 64;
    if short != 63 {
        return Ok(Header {
            code,
            length: short,
            size: 2,
        });
    }
    if rest < 6 {
        return Err(Reason::HeaderCut);
    }
    Ok(Header {
        code,
        length: le32_at(room, i + 2),
        size: 6,
    })
}

// Whether a header passes; `class` is that of its code, and `rest` bytes of the list's room follow it: its body is longer (9); End has a body (10); a
// container, and no depth is left (12).
pub fn passes(class: Class, depths: u32, rest: usize, len: u32) -> Result<(), Reason>
    ensures { fault_of result ≡ fault_by class depths rest len }
{
    if rest < len as usize {
        return Err(Reason::BodyLongerThanList);
    }
    match class {
        Class::End if 0 < len => Err(Reason::EndWithABody),
        Class::Container if depths == 0 => Err(Reason::ContainerAtDepth8),
        _ => Ok(()),
    }
}

// A header that passes, and the class of its code.
#[derive(Clone, Copy, Debug, PartialEq, Eq)]
pub struct Passed {
    pub class: Class,
    pub header: Header,
}

// The header at a place of a list's room, if it passes: once as it stands, then the class of its code among those lent, then the judge.
pub fn read_head(
    classes: &[Class],
    depths: u32,
    room: &[u8],
    at: BytePlace,
) -> Result<Passed, Reason>
    requires { (length classes.now ≡ 1024) × (at.0 ≤ length room.now) }
    ensures told { as_passed result ≡ head_by (class_here classes.now (drop at.0 room.now)) depths (drop at.0 room.now) }
    ensures class { IfOk result (λ passed. passed.class ≡ class_here classes.now (drop at.0 room.now)) }
    ensures inside { IfOk result (λ passed. at.0 + passed.header.size + passed.header.length ≤ length room.now) }
{
    let header = raw_head(room, at)?;
    let class = classes[header.code as usize];
    let start = at.0 + header.size as usize;
    passes(class, depths, room.len() - start, header.length)?;
    Ok(Passed { class, header })
}
