// Strings.
ghost use Rattle.std.specs.Prelude.{◌≡◌, ◌+◌, ◌*◌, ◌≤◌, length, IfOk};
ghost use Rattle.format.specs.Items.{string};
ghost use Rattle.format.specs.WritingItems.{spell_txt};
ghost use Rattle.bits.specs.Places.{InEither};
ghost use Rattle.sink.specs.Laying.{mk};
ghost use Rattle.spelling.specs.Spellings.{spelled_to};
ghost use Rattle.spelling.specs.Writing.{bits_over};
ghost use Rattle.spelling.specs.Writer.{Writes};

use crate::number_at;
use crate::writer::Writer;
use bits::BytePlace;
use sink::{Impossible, Sink, put_byte};

// The bytes of a String, 1 to 255 each, and the zero byte that ends it: the byte place behind them.
fn spell_text(out: &mut [u8], at: usize, text: &[u64]) -> Result<usize, Impossible>
    requires { (at ≤ 16777216) × (length text.now ≤ 16777216) }
    ensures writes { InEither (λ o. spelled_to out.new result ≡ bits_over o (mk out.old (8 * at) 0) (spell_txt o text.now)) }
    ensures within { IfOk result (λ p. p ≡ at + length text.now + 1) }
{
    for (i, byte) in text.iter().enumerate() {
        let value = *byte;
        if value == 0 {
            return Err(Impossible);
        }
        if 255 < value {
            return Err(Impossible);
        }
        put_byte(out, at + i, value);
    }
    let end = at + text.len();
    put_byte(out, end, 0);
    Ok(end + 1)
}

impl Writer<'_> {
    // A String: its length and then its bytes.
    pub fn string(&mut self) -> Result<(), Impossible>
        ensures writes { Writes self.old self.new result string }
    {
        let values = self.values;
        let from = self.index;
        let length = number_at(values, from)?;
        if 16777216 < length {
            return Err(Impossible);
        }
        let first = from + 1;
        let count = length as usize;
        if values.len() - first < count {
            return Err(Impossible);
        }
        let behind = first + count;
        let start = sink::align(self.order, self.out, self.sink);
        let next = spell_text(self.out, start.byte.0, &values[first..behind])?;
        let place = bits::first_bit(BytePlace(next));
        self.go_on(Sink { place, part: 0 }, behind)
    }
}
