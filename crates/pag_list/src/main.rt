// The listing of the file on standard input; with the argument --singles, path coordinates are printed as the bits of singles. What it prints is made by proved functions; this program only reads and writes.
#![tactic(auto)]

use std::env::Env;
use std::io::Read;

// Every code is below the level: all tags that can be read are.
const LEVEL: u32 = 1023;

// The most bytes that are listed; one more is read, to notice longer input.
const MOST: usize = 32768;

// 8,192 numbers are those of 2,730 tags at most, so that `tags` never refuses what `read` accepts.
fn print_file(rt: &(impl Print + Eprint), file: &[u8], singles: bool) {
    let mut table = [0u64; 8192];
    let mut rows = [0u32; 13650];
    if singles {
        printing::print_singles(rt, file, &mut table, &mut rows);
        return;
    }
    printing::print_tables(rt, LEVEL, file, &mut table, &mut rows);
}

fn print_input(rt: &(impl Print + Eprint), source: &mut impl Read, file: &mut [u8], singles: bool) {
    match printing::read_input(source, file) {
        Ok(count) if count <= MOST => print_file(rt, &file[..count], singles),
        Ok(_) => printing::print_too_long(rt),
        Err(_) => {
            let _ = eprintln!(rt; "pag_list: standard input cannot be read");
        }
    }
}

// Is the first argument --singles?
fn asks_singles(rt: &impl Env) -> bool {
    let mut word = [0u8; 16];
    match rt.arg(1, &mut word) {
        Ok(count) => matches!(&word[..count], b"--singles"),
        Err(_) => false,
    }
}

fn main(rt: HostRuntime) {
    let mut file = [0u8; 32769];
    print_input(&rt, &mut rt.stdin(), &mut file, asks_singles(&rt));
}
