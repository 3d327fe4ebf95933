// The page that a text is written on.
ghost use Rattle.std.specs.Prelude.{◌≡◌, ℕ, ◌+◌, ◌*◌, ◌≤◌, [], ◌∷◌, ◌++◌, length, drop};
ghost use Rattle.std.specs.List.{flat_map};
ghost use Rattle.statements.specs.Lines.{field, line, lines_of, Put, Gives};
ghost use Rattle.statements.specs.Forms.{price_field};

use crate::entry::Entry;
use crate::statement::STATEMENT_MOST;
use arrayvec::ArrayVec;
use itoa::Buffer;
use std::marker::Model;

// At most as much text as the longest statement has: what no longer fits is left out.
#[derive(Drop)]
pub(crate) struct Page {
    bytes: ArrayVec<u8, STATEMENT_MOST>,
}

// Clauses see the text.
impl Model for Page {
    ghost use Rattle.std.specs.Prelude.{ℕ, List};

    ghost Value = { List ℕ };

    ghost view = { λ p. p.bytes.items };
}

impl Page {
    pub(crate) fn new() -> Self
        ensures { result ≡ [] }
    {
        Page {
            bytes: ArrayVec::new(),
        }
    }

    pub(crate) fn len(&self) -> usize
        ensures { result ≡ length self.now }
    {
        self.bytes.len()
    }

    pub(crate) fn byte(&mut self, byte: u8)
        ensures { Put 1 self.old (byte ∷ []) self.new }
    {
        let _full = self.bytes.try_push(byte);
    }

    pub(crate) fn text(&mut self, text: &[u8])
        ensures { Put (length text.now) self.old text.now self.new }
    {
        let _full = self.bytes.try_extend_from_slice(text);
    }

    // A space and a number.
    pub(crate) fn field(&mut self, n: u64)
        ensures { Put 21 self.old (field n) self.new }
    {
        self.byte(b' ');
        self.text(Buffer::new().format(n).as_bytes());
    }

    pub(crate) fn fields(&mut self, numbers: &[u64])
        ensures { Put (21 * length numbers.now) self.old (flat_map field numbers.now) self.new }
    {
        for n in numbers {
            self.field(*n);
        }
    }

    // A price in yuan, or a dash where there is none.
    pub(crate) fn price(&mut self, price: Option<u8>)
        ensures { Put 21 self.old (price_field price) self.new }
    {
        match price {
            Some(price) => self.field(10 * u64::from(price)),
            None => self.text(b" -"),
        }
    }

    // A line of plain numbers.
    pub(crate) fn line(&mut self, letter: u8, numbers: &[u64])
        ensures { Put (2 + 21 * length numbers.now) self.old (line letter numbers.now) self.new }
    {
        self.byte(letter);
        self.fields(numbers);
        self.byte(b'\n');
    }

    // The lines of the entries that a function gives to the numbers below the count.
    pub(crate) fn entries<E: Entry, F: Fn(u8) -> E>(&mut self, count: u8, entry: F)
        requires { F.IsAlwaysCallable entry }
        ensures { (e : ℕ → E) → Gives (F.post entry) count e → Put (E.Entry.width * count) self.old (lines_of E.Entry.text e count) self.new }
    {
        for number in 0..count {
            entry(number).put(self);
        }
    }

    // Copies the text to the start of a buffer that it fits.
    pub(crate) fn copy_to(&self, buffer: &mut [u8])
        requires { length self.now ≤ length buffer.old }
        ensures { buffer.new ≡ self.now ++ drop (length self.now) buffer.old }
    {
        let text = self.bytes.as_slice();
        buffer[..text.len()].copy_from_slice(text);
    }
}
