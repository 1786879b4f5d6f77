// The listing of each case, or its refusal: the arguments are pairs of a level and a file's name.
#![tactic(auto)]

use std::env::{Env, FillError};
use std::fs::File;
use std::io::{self, Read};
use std::rt::Files;

// The most bytes that are listed; one more is read, to notice a longer file.
const MOST: usize = 65535;

// The number that decimal digits spell; 4 bits of a digit in ASCII are its value. Past five digits none is taken: no level is that large.
fn level_of(word: &[u8]) -> u32 {
    let mut level = 0;
    for digit in word {
        if level >= 10000 {
            break;
        }
        level = level * 10 + u32::from(digit % 16);
    }
    level
}

// The line before a case's listing: its name and its level.
fn print_name(rt: &(impl Print + Eprint), name: &[u8], level: &[u8]) {
    for text in [b"# ".as_slice(), name, b" ", level, b"\n"] {
        let _ = printing::write(rt, text);
    }
}

fn print_file(rt: &(impl Print + Eprint), level: u32, file: &[u8]) {
    let mut table = [0u64; 65536];
    let mut rows = [0u32; 65536];
    printing::print_tables(rt, level, file, &mut table, &mut rows);
}

// What failed, and why.
fn fail(rt: &impl Eprint, name: &str, why: io::Error) {
    let _ = eprintln!(rt; "{name}: {why}");
}

fn print_input(
    rt: &(impl Print + Eprint),
    level: u32,
    source: &mut impl Read,
    file: &mut [u8],
    name: &str,
) {
    match printing::read_input(source, file) {
        Ok(count) if count <= MOST => print_file(rt, level, &file[..count]),
        Ok(_) => printing::print_too_long(rt),
        Err(why) => fail(rt, name, why),
    }
}

fn print_named(rt: &(impl Files + Print + Eprint), level: u32, name: &str) {
    match File::open(rt, name) {
        Err(why) => fail(rt, name, why),
        Ok(mut source) => {
            let mut file = [0u8; 65536];
            print_input(rt, level, &mut source, &mut file, name);
        }
    }
}

// An argument, laid into the lent room: empty if there is none, or no room for it.
fn arg<'a>(rt: &impl Env, i: usize, room: &'a mut [u8]) -> &'a [u8] {
    match rt.arg(i, room) {
        Ok(count) => &room[..count],
        Err(_) => &[],
    }
}

// The case whose level is argument i; its name is the next.
fn print_case(rt: &(impl Env + Files + Print + Eprint), i: usize, next: usize) {
    let mut level_room = [0u8; 4096];
    let mut name_room = [0u8; 4096];
    let level = arg(rt, i, &mut level_room);
    let name = arg(rt, next, &mut name_room);
    print_name(rt, name, level);
    match str::from_utf8(name) {
        Ok(name) => print_named(rt, level_of(level), name),
        Err(_) => {
            let _ = eprintln!(rt; "a file's name is not UTF-8");
        }
    }
}

// Is there an argument i?
fn has_arg(rt: &impl Env, i: usize) -> bool {
    !matches!(rt.arg(i, &mut []), Err(FillError::NotPresent))
}

// How many arguments there are, the program's name among them.
fn arg_count(rt: &impl Env) -> usize {
    for i in 0..usize::MAX {
        if !has_arg(rt, i) {
            return i;
        }
    }
    usize::MAX
}

// The first argument is the program's name.
fn main(rt: HostRuntime) {
    let pairs = arg_count(&rt) / 2;
    for i in 0..pairs {
        print_case(&rt, 2 * i + 1, 2 * i + 2);
    }
}
