ghost use Rattle.std.specs.Prelude.{◌≡◌, [], ◌++◌, IfOk, OnOk, decimal};
ghost use Rattle.csv.specs.Writing.{default_writer, field_text};
ghost use Rattle.like_replies.specs.Output.{TellsOutput, Writes};

use crate::output::Output;
use crate::write_fault::WriteFault;
use itoa::Buffer;
use std::alloc::{AllocError, Global};
use std::marker::Model;

/// The text of rows on its way to a writer, in room that was taken before.
#[derive(Drop)]
pub struct Sheet {
    text: Vec<u8>,
}

impl Model for Sheet {
    ghost use Rattle.std.specs.Prelude.{ℕ, List};

    ghost Value = { List ℕ };

    ghost view = { λ s. s.text.items };
}

impl Sheet {
    /// A sheet with no text, and with room for this many bytes.
    pub fn with_room(alloc: Global, bytes: usize) -> Result<Self, AllocError>
        ensures { IfOk result (λ sheet. sheet ≡ []) }
    {
        Ok(Sheet {
            text: Vec::with_capacity(alloc, bytes)?,
        })
    }

    /// Takes all text off, and keeps the room.
    pub fn clear(&mut self)
        ensures { self.new ≡ [] }
    {
        self.text.clear();
    }

    /// Adds text.
    pub fn add(&mut self, text: &[u8]) -> Result<(), AllocError>
        ensures { OnOk result (self.new ≡ self.old ++ text.now) }
    {
        self.text.extend_from_slice(text)
    }

    /// Adds a number in decimal, which as a field needs no quotes.
    pub fn add_number(&mut self, number: u64) -> Result<(), AllocError>
        ensures { OnOk result (self.new ≡ self.old ++ field_text default_writer (decimal number)) }
    {
        self.add(Buffer::new().format(number).as_bytes())
    }

    /// Adds text, and after it a number.
    pub fn add_numbered(&mut self, text: &[u8], number: u64) -> Result<(), AllocError>
        ensures { OnOk result (self.new
            ≡ self.old ++ (text.now ++ field_text default_writer (decimal number))) }
    {
        self.add(text)?;
        self.add_number(number)
    }

    /// Writes its text.
    pub fn write<W: Output>(&self, out: &mut W) -> Result<(), WriteFault>
        ensures written { Writes (W.held out.old) (W.held out.new) result self.now }
        ensures told { TellsOutput W.has_failed out.old out.new result }
    {
        match out.append(&self.text) {
            Ok(()) => Ok(()),
            Err(_) => Err(WriteFault::Write),
        }
    }
}
