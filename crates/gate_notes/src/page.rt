// Lines that are given together.
ghost use Rattle.std.specs.Prelude.{◌≡◌, ◌≤◌, ◌+◌, ◌++◌, [], decimal, length, IsErr, IsOk};
ghost use Rattle.gate_base.specs.Faults.{HasCause};
ghost use Rattle.gate_io.specs.Flow.{Gives};

use arrayvec::ArrayString;
use gate_io::{Failed, Sink};
use itoa::Buffer;
use std::marker::Model;

/// Octets that are to be given, so that many short lines are few gives. It takes no memory.
#[derive(Drop)]
pub struct Page {
    text: ArrayString<4096>,
}

impl Model for Page {
    ghost use Rattle.std.specs.Prelude.{ℕ, List};

    ghost Value = { List ℕ };

    ghost view = { λ p. p.text.bytes };
}

impl Page {
    /// Nothing written.
    pub fn new() -> Page
        ensures { result ≡ [] }
    {
        Page {
            text: ArrayString::new(),
        }
    }

    /// How many octets are written.
    pub fn len(&self) -> usize
        ensures { result ≡ length self.now }
    {
        self.text.len()
    }

    /// Writes words.
    pub fn words(&mut self, words: &str)
        requires { length self.old + length words.now ≤ 4096 }
        ensures { self.new ≡ self.old ++ words.now }
    {
        self.text.push_str(words);
    }

    /// Writes a number.
    pub fn number(&mut self, number: u64)
        requires { length self.old + 20 ≤ 4096 }
        ensures text { self.new ≡ self.old ++ decimal number }
        ensures short { length self.new ≤ length self.old + 20 }
    {
        let mut buffer = Buffer::new();
        self.text.push_str(buffer.format(number));
    }

    /// Gives what is written, and empties the page. Where the give fails the page stays as it was.
    pub fn give<O: Sink>(&mut self, output: &mut O) -> Result<(), Failed>
        ensures given { Gives (O.given output.old) (O.given output.new) result self.old }
        ensures emptied { IsOk result → self.new ≡ [] }
        ensures kept { IsErr result → self.new ≡ self.old }
        ensures cause { HasCause (O.faults output.old) (O.faults output.new) result }
        ensures kin { O.kin output.old output.new }
    {
        match output.give(self.text.as_bytes()) {
            Ok(()) => {
                self.text.clear();
                Ok(())
            }
            Err(Failed) => Err(Failed),
        }
    }
}
