ghost use Rattle.std.specs.Prelude.{◌≡◌, ◌+◌, ◌<◌, ◌≤◌, ◌^◌, ◌++◌, decimal, length};
ghost use Rattle.arrayvec.specs.ArrayVec.{array_vec_len};
ghost use Rattle.csv.specs.Writing.{default_writer, field_text};

use arrayvec::ArrayVec;
use itoa::Buffer;
use std::marker::Model;

/// How rows with rising numbers begin: a start and then the number in decimal, whose last digit alone mostly changes.
#[derive(Drop)]
pub struct Head {
    text: ArrayVec<u8, 48>,
    // Where the number begins.
    place: usize,
    number: u64,
}

impl Model for Head {
    ghost use Rattle.std.specs.Prelude.{◌≡◌, ◌+◌, ◌≤◌, decimal, drop, take};
    ghost use Rattle.csv.specs.Writing.{default_writer, field_text};
    ghost use Rattle.like_replies.specs.RowParts.{RowHead};

    ghost Value = { RowHead };

    ghost view = { λ h. record { start = take h.place h.text.items; number = h.number } };

    ghost invariant = { λ h. (drop h.place h.text.items ≡ field_text default_writer (decimal h.number))
        × (h.place + 20 ≤ 48) };
}

impl Head {
    /// The head of the row with this number.
    pub fn new(start: &[u8], number: u64) -> Self
        requires { length start.now + 20 ≤ 48 }
        ensures { result ≡ record { start = start.now; number = number } }
    {
        let mut text = ArrayVec::new();
        add(&mut text, start);
        add(&mut text, Buffer::new().format(number).as_bytes());
        Head {
            text,
            place: start.len(),
            number,
        }
    }

    /// The text.
    pub fn text(&self) -> &[u8]
        ensures { result.now ≡ self.now.start ++ field_text default_writer (decimal self.now.number) }
    {
        &self.text
    }

    /// Goes to the next number.
    pub fn next(&mut self)
        requires { self.old.number + 1 < 2 ^ 64 }
        ensures { self.new ≡ record { start = self.old.start; number = self.old.number + 1 } }
    {
        self.number += 1;
        let last = self.text.len() - 1;
        if self.text[last] < b'9' {
            self.text[last] += 1;
            return;
        }
        self.text.truncate(self.place);
        add(&mut self.text, Buffer::new().format(self.number).as_bytes());
    }
}

// Adds text.
fn add(text: &mut ArrayVec<u8, 48>, more: &[u8])
    requires { array_vec_len text.old + length more.now ≤ 48 }
    ensures { text.new.items ≡ text.old.items ++ more.now }
{
    let Ok(()) = text.try_extend_from_slice(more) else {
        unreachable!();
    };
}
