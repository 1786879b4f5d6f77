// Reads files and writes them back, and writes tables and reads them back: a line for each record on standard input.
// What is lent is filled before each call. A refusal must leave all of it so, and an acceptance what is past its count: else the line says TOUCHED.
// tests/reference/make_round_trips.py makes the records, and what has to be printed.
#![tactic(auto)]

ghost use Rattle.std.specs.Prelude.{◌≤◌, length};

use answers::Answer;
use reasons::Reason;
use std::io::Read;

const FILE: u8 = 0;

// A record of this kind ends the input, as does the end of its bytes.
const END: u8 = 255;

// What an output and a table are filled with, to see what was written.
const FILLED: u8 = 0xAA;

const FILLED_NUMBER: u64 = 0xAAAA_AAAA_AAAA_AAAA;

// How many numbers are lent for a file's table, and bytes for a file.
const ROOM: usize = 16384;

// What goes with the calls of a record: its level and its bit order.
#[derive(Clone, Copy)]
struct Call {
    level: u32,
    order: u32,
}

// What a record holds.
#[derive(Clone, Copy)]
enum Kind {
    File,
    Table,
}

// A record's kind, its level and bit order, and the count of the bytes that follow.
#[derive(Clone, Copy)]
struct Head {
    kind: Kind,
    call: Call,
    count: usize,
}

fn say(rt: &impl Print, text: &str) {
    let _ = print!(rt; "{text}");
}

fn say_number(rt: &impl Print, number: u64) {
    let _ = print!(rt; " {number}");
}

fn say_call(rt: &impl Print, what: &str, call: Call) {
    let Call { level, order } = call;
    let _ = print!(rt; "{what} {level} {order}");
}

fn say_answer(rt: &impl Print, what: &str, reason: Reason, number: u64) {
    say(rt, what);
    say_number(rt, u64::from(u32::from(reason)));
    say_number(rt, number);
}

fn say_same<T: PartialEq>(rt: &impl Print, one: &[T], other: &[T]) {
    say(rt, if one == other { " same" } else { " OTHER" });
}

// Is all of what was lent still filled?
fn say_kept<T: PartialEq>(rt: &impl Print, lent: &[T], filled: &T) {
    let kept = lent.iter().all(|item| item == filled);
    say(rt, if kept { " kept" } else { " TOUCHED" });
}

// A call that has too little room: it must be refused, and leave what was lent.
fn say_short(rt: &impl Print, answer: Answer) {
    match answer {
        Answer::Accepted(_) => say(rt, " TAKEN"),
        Answer::Refused(reason, number) => say_answer(rt, " short", reason, number),
    }
}

// What was read of a file, written: the same bytes, and nothing behind them is touched.
fn write_back(rt: &impl Print, call: Call, table: &[u64], file: &[u8], out: &mut [u8]) {
    out.fill(FILLED);
    match writer::write(call.level, call.order, table, out) {
        Answer::Refused(reason, number) => {
            say_answer(rt, " refused", reason, number);
            say_kept(rt, out, &FILLED);
        }
        Answer::Accepted(count) => {
            say(rt, " write");
            say_number(rt, count);
            let used = out.len().min(count as usize);
            say_same(rt, file, &out[..used]);
            say_kept(rt, &out[used..], &FILLED);
        }
    }
}

// And with one byte too few: 21, and nothing is touched.
fn write_short(rt: &impl Print, call: Call, table: &[u64], file: &[u8], out: &mut [u8]) {
    let room = file.len().min(out.len());
    if room == 0 {
        return;
    }
    let part = &mut out[..room - 1];
    part.fill(FILLED);
    say_short(rt, writer::write(call.level, call.order, table, part));
    say_kept(rt, part, &FILLED);
}

// A file that was accepted, read with room for one number less than it needs: 19, and nothing is touched.
fn read_short(rt: &impl Print, call: Call, file: &[u8], needed: usize) {
    let mut table = [FILLED_NUMBER; ROOM];
    let room = needed.min(ROOM);
    if room == 0 {
        return;
    }
    let part = &mut table[..room - 1];
    say_short(rt, reader::read(call.level, call.order, file, part));
    say_kept(rt, part, &FILLED_NUMBER);
}

fn try_file(rt: &impl Print, call: Call, file: &[u8], table: &mut [u64], out: &mut [u8]) {
    say_call(rt, "file", call);
    table.fill(FILLED_NUMBER);
    match reader::read(call.level, call.order, file, table) {
        Answer::Refused(reason, number) => {
            say_answer(rt, " refused", reason, number);
            say_kept(rt, table, &FILLED_NUMBER);
        }
        Answer::Accepted(count) => {
            say(rt, " read");
            say_number(rt, count);
            let used = table.len().min(count as usize);
            say_kept(rt, &table[used..], &FILLED_NUMBER);
            read_short(rt, call, file, used);
            write_back(rt, call, &table[..used], file, out);
            write_short(rt, call, &table[..used], file, out);
        }
    }
}

// The numbers of a table, eight bytes each with the lowest first, as many as there are and fit.
fn load(body: &[u8], table: &mut [u64]) -> usize
    ensures { result ≤ length table.old }
{
    let count = table.len().min(body.len() / 8);
    for (i, number) in table[..count].iter_mut().enumerate() {
        *number = bits::fields::eight(body, 8 * i);
    }
    count
}

// What was written of a table, read: the same numbers.
fn read_back(rt: &impl Print, call: Call, file: &[u8], table: &[u64]) {
    let mut again = [FILLED_NUMBER; ROOM];
    match reader::read(call.level, call.order, file, &mut again) {
        Answer::Refused(reason, number) => {
            say_answer(rt, " refused", reason, number);
            say_kept(rt, &again, &FILLED_NUMBER);
        }
        Answer::Accepted(count) => {
            say(rt, " read");
            say_number(rt, count);
            let used = ROOM.min(count as usize);
            say_same(rt, table, &again[..used]);
            say_kept(rt, &again[used..], &FILLED_NUMBER);
        }
    }
}

fn try_table(rt: &impl Print, call: Call, table: &[u64], out: &mut [u8]) {
    say_call(rt, "table", call);
    out.fill(FILLED);
    match writer::write(call.level, call.order, table, out) {
        Answer::Refused(reason, number) => {
            say_answer(rt, " refused", reason, number);
            say_kept(rt, out, &FILLED);
        }
        Answer::Accepted(count) => {
            say(rt, " write");
            say_number(rt, count);
            let used = out.len().min(count as usize);
            say_kept(rt, &out[used..], &FILLED);
            read_back(rt, call, &out[..used], table);
        }
    }
}

// The next record's head, if there is one.
fn read_head(source: &mut impl Read) -> Option<Head> {
    let mut bytes = [0u8; 8];
    source.read_exact(&mut bytes).ok()?;
    let kind = match bytes[0] {
        END => return None,
        FILE => Kind::File,
        _ => Kind::Table,
    };
    Some(Head {
        kind,
        call: Call {
            order: u32::from(bytes[1]),
            level: u32::from(u16::from_le_bytes([bytes[2], bytes[3]])),
        },
        count: usize::from(u16::from_le_bytes([bytes[4], bytes[5]])),
    })
}

// One record, if there is one more.
fn try_next(rt: &impl Print, source: &mut impl Read) -> Option<()> {
    let mut room = [0u8; ROOM];
    let mut table = [0u64; ROOM];
    let mut out = [0u8; ROOM];
    let Head { kind, call, count } = read_head(source)?;
    let body = &mut room[..ROOM.min(count)];
    source.read_exact(body).ok()?;
    match kind {
        Kind::File => try_file(rt, call, body, &mut table, &mut out),
        Kind::Table => {
            let count = load(body, &mut table);
            try_table(rt, call, &table[..count], &mut out);
        }
    }
    say(rt, "\n");
    Some(())
}

fn main(rt: HostRuntime) {
    let mut source = rt.stdin();
    for _ in 0..65536 {
        if try_next(&rt, &mut source).is_none() {
            return;
        }
    }
}
