// The tally of the files that stand one after another on standard input, at level 1023 and high first. What it prints is made by proved functions; this
// program only reads and writes.
#![tactic(auto)]

ghost use Rattle.std.specs.Prelude.{◌≡◌, ◌≤◌, length, IfOk, IfSome};
ghost use Rattle.pag_tally.specs.Sizes.{size_of};

use answers::Answer;
use std::io;
use std::io::Read;
use tally::Tally;

// Every code is below the level: all tags that can be read are.
const LEVEL: u32 = 1023;

const HIGH_FIRST: u32 = 0;

// Why no file could be read: a read failed, or the next file is too long.
#[derive(Clone, Copy, Debug, PartialEq, Eq)]
enum Unread {
    Failed,
    TooLong,
}

impl From<io::Error> for Unread {
    fn from(_: io::Error) -> Unread {
        Unread::Failed
    }
}

// How many bytes a file takes that starts so: as many as its length field says, 9 if that is less.
fn size_of(start: &[u8]) -> usize
    requires { 8 ≤ length start.now }
    ensures { (result ≡ size_of start.now) × (9 ≤ result) }
{
    (headers::le32_at(start, 4) as usize).max(9)
}

// Reads the next file into the room for the longest one, and answers how many bytes it has; none if the input is over. Fewer than eight bytes have no
// length field, and are a file as they are; the input may end before a file does.
fn next_file(source: &mut impl Read, file: &mut [u8; 32768]) -> Result<Option<usize>, Unread>
    ensures { IfOk result (λ next. IfSome next (λ count. count ≤ 32768)) }
{
    let count = printing::read_input(source, &mut file[..8])?;
    if count == 0 {
        return Ok(None);
    }
    if count < 8 {
        return Ok(Some(count));
    }
    let size = size_of(file);
    if file.len() < size {
        return Err(Unread::TooLong);
    }
    let rest = printing::read_input(source, &mut file[8..size])?;
    Ok(Some(8 + rest))
}

fn print_tally(rt: &(impl Print + Eprint), tally: Tally) {
    let mut text = [0u8; 43036];
    let count = tally_text::put_tally(tally, &mut text);
    let _ = printing::write(rt, &text[..count]);
}

// Each file is a turn, and so is the end of the input. The tally refuses a file beyond its limit, so there is no turn after these.
fn main(rt: HostRuntime) {
    let mut source = rt.stdin();
    let mut file = [0u8; 32768];
    let mut tally = Tally::new();
    for _ in 0..=1000000 {
        match next_file(&mut source, &mut file) {
            Ok(None) => {
                print_tally(&rt, tally);
                return;
            }
            Ok(Some(count)) => {
                let added = tally::add(tally, LEVEL, HIGH_FIRST, &file[..count]);
                if let Answer::Refused(why, number) = added.answer {
                    printing::print_refusal(&rt, u32::from(why), number);
                    return;
                }
                tally = added.tally;
            }
            Err(Unread::Failed) => {
                let _ = eprintln!(rt; "pag_tally: standard input cannot be read");
                return;
            }
            Err(Unread::TooLong) => {
                printing::print_too_long(&rt);
                return;
            }
        }
    }
}
