// A line of the notes.
ghost use Rattle.std.specs.Prelude.{◌≡◌, ◌≤◌, ◌+◌, ◌++◌, [], decimal, length};
ghost use Rattle.gate_base.specs.Faults.{HasCause};
ghost use Rattle.gate_io.specs.Flow.{Gives};
ghost use Rattle.gate_notes.specs.Notes.{counted, newline};

use arrayvec::ArrayString;
use gate_io::{Failed, Sink};
use itoa::Buffer;
use std::marker::Model;

/// A line as it is written. It takes no memory.
#[derive(Drop)]
pub struct TextLine {
    text: ArrayString<400>,
}

impl Model for TextLine {
    ghost use Rattle.std.specs.Prelude.{ℕ, List};

    ghost Value = { List ℕ };

    ghost view = { λ l. l.text.bytes };
}

impl TextLine {
    /// Nothing written.
    pub fn new() -> TextLine
        ensures { result ≡ [] }
    {
        TextLine {
            text: ArrayString::new(),
        }
    }

    /// Writes words.
    pub fn words(&mut self, words: &str)
        requires { length self.old + length words.now ≤ 400 }
        ensures { self.new ≡ self.old ++ words.now }
    {
        self.text.push_str(words);
    }

    /// Writes a number.
    pub fn number(&mut self, number: u64)
        requires { length self.old + 20 ≤ 400 }
        ensures text { self.new ≡ self.old ++ decimal number }
        ensures short { length self.new ≤ length self.old + 20 }
    {
        let mut buffer = Buffer::new();
        self.text.push_str(buffer.format(number));
    }

    /// Writes a name and its number.
    pub fn counted(&mut self, name: &str, number: u64)
        requires { length self.old + length name.now + 20 ≤ 400 }
        ensures text { self.new ≡ self.old ++ counted name.now number }
        ensures short { length self.new ≤ length self.old + length name.now + 20 }
    {
        self.words(name);
        self.number(number);
    }

    /// Ends the line, and gives it in one give.
    pub fn give<E: Sink>(mut self, notes: &mut E) -> Result<(), Failed>
        requires { length self + 1 ≤ 400 }
        ensures given { Gives (E.given notes.old) (E.given notes.new) result (self ++ newline) }
        ensures cause { HasCause (E.faults notes.old) (E.faults notes.new) result }
        ensures kin { E.kin notes.old notes.new }
    {
        self.words("\n");
        notes.give(self.text.as_bytes())
    }
}
