// Text: decimal numbers and words, each laid behind the one before into lent bytes.
ghost use Rattle.std.specs.Prelude.{◌≡◌, ◌+◌, ◌*◌, ◌<◌, ◌≤◌, [], ◌∷◌, length};
ghost use Rattle.listing.specs.Decimal.{decimal};
ghost use Rattle.listing.specs.Steps.{field, tabbed};
ghost use Rattle.listing.specs.Texts.{Adds};

// The largest number of one digit.
const LAST_DIGIT: u64 = 9;

// Lent bytes, and how many of them are used.
#[derive(Drop)]
pub struct Text<'a> {
    pub out: &'a mut [u8],
    pub used: usize,
}

impl Text<'_> {
    // One byte.
    fn byte(&mut self, byte: u8)
        requires { self.old.used < length self.old.out.now }
        ensures { Adds self.old self.new (byte ∷ []) }
    {
        self.out[self.used] = byte;
        self.used += 1;
    }

    // The digits of a value: those before the last, and the last.
    fn digits(&mut self, value: u64)
        requires { self.old.used + length (decimal value) ≤ length self.old.out.now }
        ensures { Adds self.old self.new (decimal value) }
    {
        if LAST_DIGIT < value {
            self.digits(value / 10);
        }
        self.byte(b'0' + (value % 10) as u8);
    }

    // A number, and the byte that ends its field.
    pub fn field(&mut self, value: u64, end: u8)
        requires { self.old.used + 21 ≤ length self.old.out.now }
        ensures { Adds self.old self.new (field value end) × (self.new.used ≤ self.old.used + 21) }
    {
        self.digits(value);
        self.byte(end);
    }

    // Numbers, each ended by a tab.
    pub(crate) fn tabbed(&mut self, values: &[u64])
        requires { self.old.used + 21 * length values.now ≤ length self.old.out.now }
        ensures { Adds self.old self.new (tabbed values.now) × (self.new.used ≤ self.old.used + 21 * length values.now) }
    {
        for value in values {
            self.field(*value, b'\t');
        }
    }

    // Bytes as they are.
    pub fn word(&mut self, word: &[u8])
        requires { self.old.used + length word.now ≤ length self.old.out.now }
        ensures { Adds self.old self.new word.now }
    {
        let end = self.used + word.len();
        self.out[self.used..end].copy_from_slice(word);
        self.used = end;
    }
}
