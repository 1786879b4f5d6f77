// The exports for hosts, over the proved calls. An answer is a plain struct here: reason 0 means accepted, and the number is the count.
#![tactic(auto)]

ghost use Rattle.std.specs.Prelude.{◌≡◌};
ghost use Rattle.format.specs.Reasons.{read_file, read_tags, into};
ghost use Rattle.bit_reader.specs.Fields.{field_of};
ghost use Rattle.pag.specs.Plain.{plain, leaves_plain, WritesPlain};
ghost use Rattle.pag.specs.PlainBits.{plain_field, is_signed};

pub mod canvas_size;
mod fraction;
mod indexes;
mod single;
mod tallies;

use answers::Answer;
use bits::{BitPlace, Number};

#[repr(C)]
#[derive(Clone, Copy)]
pub struct PagAnswer {
    pub reason: u32,
    pub number: u64,
}

impl From<Answer> for PagAnswer {
    ghost from_gives = { λ answer given. given ≡ plain answer };

    fn from(answer: Answer) -> PagAnswer {
        match answer {
            Answer::Accepted(count) => PagAnswer {
                reason: 0,
                number: count,
            },
            Answer::Refused(reason, number) => PagAnswer {
                reason: u32::from(reason),
                number,
            },
        }
    }
}

#[unsafe(no_mangle)]
pub extern "C" fn pag_read(level: u32, order: u32, file: &[u8], table: &mut [u64]) -> PagAnswer
    ensures { leaves_plain table.new result (into table.old (read_file order level file.now)) }
{
    PagAnswer::from(reader::read(level, order, file, table))
}

#[unsafe(no_mangle)]
pub extern "C" fn pag_tags(level: u32, order: u32, file: &[u8], tags: &mut [u32]) -> PagAnswer
    ensures { leaves_plain tags.new result (into tags.old (read_tags order level file.now)) }
{
    PagAnswer::from(reader::tags(level, order, file, tags))
}

#[unsafe(no_mangle)]
pub extern "C" fn pag_write(level: u32, order: u32, table: &[u64], out: &mut [u8]) -> PagAnswer
    ensures { WritesPlain order level table.now out.old out.new result }
{
    PagAnswer::from(writer::write(level, order, table, out))
}

// A field's answer: reason 0 means accepted, and the place is the next one; after a refusal the value is 0 and the place the same.
#[repr(C)]
#[derive(Clone, Copy)]
pub struct PagField {
    pub reason: u32,
    pub value: u64,
    pub place: u64,
}

// A bit field at a bit place of the file, in the order of this number: UB, or SB where `signed` is not 0.
#[unsafe(no_mangle)]
pub extern "C" fn pag_bits(order: u32, file: &[u8], place: u64, width: u32, signed: u32) -> PagField
    ensures { result ≡ plain_field place (field_of order (is_signed signed) file.now place width) }
{
    let at = BitPlace(place as usize);
    match bit_reader::field_at(order, file, at, width, signed != 0) {
        Ok(Number { value, next }) => PagField {
            reason: 0,
            value,
            place: next.0 as u64,
        },
        Err(reason) => PagField {
            reason: u32::from(reason),
            value: 0,
            place,
        },
    }
}
