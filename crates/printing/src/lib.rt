// What the programs share: reading a whole input, and printing a file's listing or refusal. What is printed is made by proved functions.
#![tactic(auto)]

ghost use Rattle.std.specs.Prelude.{◌≡◌, ◌≤◌, length, IfOk};
ghost use Rattle.format.specs.TableOfNumbers.{table as table_of};
ghost use Rattle.format.specs.Reasons.{walk_file, read_file, read_tags, into};
ghost use Rattle.path_singles.specs.Tables.{in_singles, TablesOf};
ghost use Rattle.printing.specs.Singles.{singles_left};

use answers::Answer;
use listing::{Cursor, Tables};
use std::io;
use std::io::{ErrorKind, Read};

// The programs are high first.
const HIGH_FIRST: u32 = 0;

// Reads to the end of the input, which may arrive in pieces, or until the room is full; answers how many bytes there are.
pub fn read_input(source: &mut impl Read, file: &mut [u8]) -> io::Result<usize>
    ensures { IfOk result (λ count. count ≤ length file.old) }
{
    let mut count = 0;
    while count < file.len() {
        let got = source.read(&mut file[count..])?;
        if got == 0 {
            break;
        }
        count += got;
    }
    Ok(count)
}

// Writes all of a text; if that fails it says so. Nothing is said if nobody reads the output any more.
pub fn write(rt: &(impl Print + Eprint), text: &[u8]) -> io::Result<()> {
    let Err(error) = rt.write_all(text) else {
        return Ok(());
    };
    if error.kind() != ErrorKind::BrokenPipe {
        let _ = eprintln!(rt; "standard output cannot be written");
    }
    Err(error)
}

// The line of a refusal. What cannot be written was said, and nothing follows.
pub fn print_refusal(rt: &(impl Print + Eprint), reason: u32, number: u64) {
    let mut line = [0u8; 64];
    let count = listing::put_refusal(reason, number, &mut line);
    let _ = write(rt, &line[..count]);
}

pub fn print_too_long(rt: &(impl Print + Eprint)) {
    let mut line = [0u8; 64];
    let count = listing::put_too_long(&mut line);
    let _ = write(rt, &line[..count]);
}

// The listing of a file with these two tables, in parts through the lent buffer: a write for each.
fn print_parts(rt: &(impl Print + Eprint), tables: &Tables<'_>, out: &mut [u8]) -> io::Result<()> {
    let mut cursor = Cursor {
        number: 0,
        row: 0,
        left: 0,
        packed: false,
    };
    while cursor.number < tables.table.len() {
        let part = tables.put_part(cursor, out);
        if part.used == 0 {
            break;
        }
        write(rt, &out[..part.used])?;
        cursor = part.to;
    }
    Ok(())
}

fn print_listing(rt: &(impl Print + Eprint), file: &[u8], table: &[u64], rows: &[u32]) {
    let mut out = [0u8; 65536];
    let tables = Tables {
        len: file.len() as u64,
        table,
        rows,
    };
    let _ = print_parts(rt, &tables, &mut out);
}

// A file: its listing at a level, or the reason why it is refused. `tags` does not refuse what `read` accepts, if it is lent five numbers for
// every three.
pub fn print_tables(
    rt: &(impl Print + Eprint),
    level: u32,
    file: &[u8],
    table: &mut [u64],
    rows: &mut [u32],
)
    ensures table_after { table.new ≡ (into table.old (read_file 0 level file.now)).lent }
    ensures rows_after { rows.new ≡ (into rows.old (read_tags 0 level file.now)).lent }
{
    let tagged = reader::tags(level, HIGH_FIRST, file, rows);
    let read = reader::read(level, HIGH_FIRST, file, table);
    match (read, tagged) {
        (Answer::Accepted(count), Answer::Accepted(row_count)) => {
            let table = &table[..count as usize];
            print_listing(rt, file, table, &rows[..row_count as usize]);
        }
        (Answer::Refused(reason, number), _) | (_, Answer::Refused(reason, number)) => {
            print_refusal(rt, u32::from(reason), number);
        }
    }
}

// The listing of a file's tables with singles for path coordinates; or 29, after all other refusals.
fn print_converted(rt: &(impl Print + Eprint), file: &[u8], table: &mut [u64], rows: &[u32])
    requires { TablesOf file.now table.old rows.now }
    ensures { table.new ≡ table_of file.now (in_singles file.now (walk_file 0 1023 file.now)) }
{
    match path_singles::tags::convert(file, rows, table) {
        Answer::Refused(reason, number) => print_refusal(rt, u32::from(reason), number),
        Answer::Accepted(_) => print_listing(rt, file, table, rows),
    }
}

// Stays: beside `print_tables`, since each promises what it leaves in the table, and one of both would promise less of either.
// A file with singles for path coordinates (C-23), at level 1023: its listing, or the reason why it is refused. The table lent holds the bits then.
pub fn print_singles(rt: &(impl Print + Eprint), file: &[u8], table: &mut [u64], rows: &mut [u32])
    ensures table_after { table.new ≡ singles_left file.now table.old rows.old }
    ensures rows_after { rows.new ≡ (into rows.old (read_tags 0 1023 file.now)).lent }
{
    let tagged = reader::tags(1023, HIGH_FIRST, file, rows);
    let read = reader::read(1023, HIGH_FIRST, file, table);
    match (read, tagged) {
        (Answer::Accepted(count), Answer::Accepted(row_count)) => {
            let table = &mut table[..count as usize];
            print_converted(rt, file, table, &rows[..row_count as usize]);
        }
        (Answer::Refused(reason, number), _) | (_, Answer::Refused(reason, number)) => {
            print_refusal(rt, u32::from(reason), number);
        }
    }
}
