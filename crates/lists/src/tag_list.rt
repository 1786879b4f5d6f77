// A tag list, where it stands.
ghost use Rattle.std.specs.Prelude.{◌+◌, ◌≤◌, length};

use bits::BytePlace;

// Whose list it is, the file's own or that of the container at this place in the file; how many depths may lie below it; and its place in the file, with the bytes from there on that are its room.
#[derive(Clone, Copy)]
pub struct TagList<'a> {
    pub owner: Option<BytePlace>,
    pub depths: u32,
    pub at: BytePlace,
    pub room: &'a [u8],
    pub ghost deep: { depths ≤ 8 },
    // It ends inside the longest file.
    pub ghost inside: { at.0 + length room.now ≤ 16777216 },
}
