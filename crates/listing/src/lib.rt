// The listing: text made from the two tables.
#![tactic(auto)]

ghost use Rattle.std.specs.Prelude.{◌≡◌, ◌+◌, ◌-◌, ◌≤◌, ◌<◌, length, get_or};
ghost use Rattle.listing.specs.Listing.{refusal, too_long};
ghost use Rattle.listing.specs.Steps.{laid, lays, ender, byte_fields, first_step, after_head, head_step, value_step, step, part_of, part_leaves, text_over};
ghost use Rattle.listing.specs.Texts.{Adds, Takes};
ghost use Rattle.format.specs.TableOfNumbers.{eight_of};

use fields::Text;

pub mod fields;

// Where a part of the listing starts: indexes in the table and the tag table, how many fields are left in the record, and whether these are the
// bytes of a packed body.
#[derive(Clone, Copy)]
pub struct Cursor {
    pub number: usize,
    pub row: usize,
    pub left: u64,
    pub packed: bool,
}

// How many bytes a part of the listing used, and where the next part starts.
#[derive(Clone, Copy)]
pub struct Part {
    pub used: usize,
    pub to: Cursor,
}

// What a listing is made from: the length of the file, and its two tables.
#[derive(Clone, Copy)]
pub struct Tables<'a> {
    pub len: u64,
    pub table: &'a [u64],
    pub rows: &'a [u32],
}

// A number of the table, 0 past its end.
fn number_at(table: &[u64], index: usize) -> u64
    ensures { result ≡ get_or table.now index 0 }
{
    table.get(index).copied().unwrap_or(0)
}

// Stays: beside `number_at`, since the promise of one function for both would have to name what its bound makes of a number.
// A number of the tag table, 0 past its end.
fn row_at(rows: &[u32], index: usize) -> u64
    ensures { result ≡ get_or rows.now index 0 }
{
    u64::from(rows.get(index).copied().unwrap_or(0))
}

// A tab where fields follow in the record, else a newline.
fn ender_of(left: u64) -> u8
    ensures { result ≡ ender left }
{
    if left == 0 { b'\n' } else { b'\t' }
}

// What follows a tag's head: its values, or the bytes of an opaque body, behind its length. The tag's numbers stand at `index`; an even state says that it is
// opaque. `row` is the next tag's.
fn after_head(table: &[u64], index: usize, row: usize) -> Cursor
    requires { index < length table.now }
    ensures { result ≡ after_head table.now index row }
{
    let packed = number_at(table, index + 1) % 2 == 0;
    let number = if packed { index + 4 } else { index + 3 };
    Cursor {
        number,
        row,
        left: number_at(table, number - 1),
        packed,
    }
}

// The bytes of a packed number as fields, the lowest first, up to the last of the record. With what ends each they have 32 bytes at most.
fn put_bytes(number: u64, left: u64, text: &mut Text<'_>)
    requires { text.old.used + 128 ≤ length text.old.out.now }
    ensures { Adds text.old text.new (byte_fields (eight_of number) left) × (text.new.used ≤ text.old.used + 128) }
{
    let mut rest = left;
    for byte in number.to_le_bytes() {
        if rest == 0 {
            return;
        }
        rest -= 1;
        text.field(u64::from(byte), ender_of(rest));
    }
}

impl Tables<'_> {
    // The first line.
    fn put_first(&self, text: &mut Text<'_>)
        requires { text.old.used + 128 ≤ length text.old.out.now }
        ensures { Adds text.old text.new (first_step self.now.len self.now.table.now).text × (text.new.used ≤ text.old.used + 128) }
    {
        text.word(b"PAG\t");
        text.tabbed(&[1, self.len]);
        text.field(number_at(self.table, 0), b'\n');
    }

    // A tag's first six fields: its row and its numbers stand at the cursor.
    fn put_head(&self, cursor: Cursor, text: &mut Text<'_>) -> Cursor
        requires { (text.old.used + 128 ≤ length text.old.out.now) × (cursor.number < length self.now.table.now) × (cursor.row ≤ length self.now.rows.now) }
        ensures { Takes text.old text.new result (head_step self.now.table.now self.now.rows.now cursor.number cursor.row) × (text.new.used ≤ text.old.used + 128) }
    {
        let Cursor { number, row, .. } = cursor;
        let to = after_head(self.table, number, row + 5);
        text.tabbed(&[
            row_at(self.rows, row),
            row_at(self.rows, row + 2),
            row_at(self.rows, row + 3),
            row_at(self.rows, row + 4),
            number_at(self.table, number),
        ]);
        text.field(number_at(self.table, number + 1), ender_of(to.left));
        to
    }

    // The number at a cursor, where fields are left: one value, or bytes of a packed body.
    fn put_value(&self, cursor: Cursor, text: &mut Text<'_>) -> Cursor
        requires { (text.old.used + 128 ≤ length text.old.out.now) × (cursor.number < length self.now.table.now) × (0 < cursor.left) }
        ensures { Takes text.old text.new result (value_step self.now.table.now cursor) × (text.new.used ≤ text.old.used + 128) }
    {
        let number = number_at(self.table, cursor.number);
        let next = cursor.number + 1;
        if cursor.packed {
            put_bytes(number, cursor.left, text);
            let left = cursor.left.saturating_sub(8);
            return Cursor {
                number: next,
                left,
                ..cursor
            };
        }
        let left = cursor.left - 1;
        text.field(number, ender_of(left));
        Cursor {
            number: next,
            left,
            ..cursor
        }
    }

    // One step: the first line, a tag's first six fields, or what one number shows. Six fields of 20 digits have 126 bytes with what ends each, so 128 are enough.
    fn put_step(&self, cursor: Cursor, text: &mut Text<'_>) -> Cursor
        requires { (text.old.used + 128 ≤ length text.old.out.now) × (cursor.number < length self.now.table.now) × (cursor.row ≤ length self.now.rows.now) }
        ensures { Takes text.old text.new result (step self.now.len self.now.table.now self.now.rows.now cursor) × (text.new.used ≤ text.old.used + 128) }
    {
        if cursor.number == 0 {
            self.put_first(text);
            return Cursor {
                number: 1,
                row: 0,
                left: 0,
                packed: false,
            };
        }
        if cursor.left == 0 {
            return self.put_head(cursor, text);
        }
        self.put_value(cursor, text)
    }

    // As many steps as the text has room for.
    fn put_steps(&self, start: Cursor, text: &mut Text<'_>) -> Cursor
        requires { text.old.used ≤ length text.old.out.now }
        ensures lent { text.new.out.ghost_name ≡ text.old.out.ghost_name }
        ensures taken { Takes text.old text.new result (part_of (length text.old.out.now - text.old.used) self.now.len self.now.table.now self.now.rows.now start) }
        ensures inside { text.new.used ≤ length text.old.out.now }
    {
        let mut cursor = start;
        while cursor.number < self.table.len()
            && cursor.row <= self.rows.len()
            && text.used + 128 <= text.out.len()
        {
            cursor = self.put_step(cursor, text);
        }
        cursor
    }

    // The part of the listing that starts at a cursor: as many steps as the lent bytes have room for.
    pub fn put_part(&self, start: Cursor, out: &mut [u8]) -> Part
        ensures { (part_leaves out.new result ≡ text_over out.old 0 (part_of (length out.old) self.now.len self.now.table.now self.now.rows.now start)) × (result.used ≤ length out.old) }
    {
        let mut text = Text { out, used: 0 };
        let to = self.put_steps(start, &mut text);
        Part {
            used: text.used,
            to,
        }
    }
}

// The line of a refusal.
pub fn put_refusal(reason: u32, number: u64, out: &mut [u8; 64]) -> usize
    ensures { (laid out.new result ≡ lays out.old 0 (refusal reason number)) × (result ≤ 64) }
{
    let mut text = Text { out, used: 0 };
    text.word(b"refused\t");
    text.field(u64::from(reason), b'\t');
    text.field(number, b'\n');
    text.used
}

// The line for input that is too long.
pub fn put_too_long(out: &mut [u8; 64]) -> usize
    ensures { (laid out.new result ≡ lays out.old 0 too_long) × (result ≤ 64) }
{
    let mut text = Text { out, used: 0 };
    text.word(b"too long\n");
    text.used
}
