ghost use Rattle.std.specs.Prelude.{◌≡◌, ◌+◌, ◌≤◌, [], ◌++◌, decimal, length};
ghost use Rattle.csv.specs.Writing.{default_writer, field_text};

use arrayvec::ArrayVec;
use itoa::Buffer;
use std::marker::Model;

/// A text of at most 48 bytes. It takes no memory.
#[derive(Drop)]
pub struct Label {
    text: ArrayVec<u8, 48>,
}

impl Model for Label {
    ghost use Rattle.std.specs.Prelude.{ℕ, List};

    ghost Value = { List ℕ };

    ghost view = { λ l. l.text.items };
}

impl Label {
    /// A label with no text.
    pub fn new() -> Self
        ensures { result ≡ [] }
    {
        Label {
            text: ArrayVec::new(),
        }
    }

    /// The text.
    pub fn text(&self) -> &[u8]
        ensures { result.now ≡ self.now }
    {
        &self.text
    }

    /// Adds text.
    pub fn add(&mut self, text: &[u8])
        requires { length self.old + length text.now ≤ 48 }
        ensures { self.new ≡ self.old ++ text.now }
    {
        let Ok(()) = self.text.try_extend_from_slice(text) else {
            unreachable!();
        };
    }

    /// Adds a number in decimal, which as a field needs no quotes.
    pub fn add_number(&mut self, number: u64)
        requires { length self.old + 20 ≤ 48 }
        ensures added { self.new ≡ self.old ++ field_text default_writer (decimal number) }
        ensures digits { length self.new ≤ length self.old + 20 }
    {
        self.add(Buffer::new().format(number).as_bytes());
    }
}
