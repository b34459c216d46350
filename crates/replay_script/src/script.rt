//! The lines of a script, one after another.
ghost use Rattle.std.specs.Prelude.{◌≡◌};
ghost use Rattle.std.specs.Option.{option_map};

use crate::command::ScriptLine;
use crate::line::read_line;
use card_digits::first_line;
use net_rows::Tables;
use std::marker::Model;

/// The number of a line that says nothing, from 1.
#[derive(Clone, Copy, Debug, PartialEq, Eq)]
pub struct MalformedLine(pub usize);

/// The lines of a script that are still to be read.
#[derive(Drop)]
pub struct Script<'a> {
    rest: &'a [u8],
    number: usize,
}

impl<'a> Model for Script<'a> {
    ghost use Rattle.std.specs.Prelude.{◌+◌, ◌<◌, ◌^◌, length};
    ghost use Rattle.card_digits.specs.Lines.{lines};
    ghost use Rattle.replay_script.specs.Lines.{Unread};

    ghost Value = { Unread };

    ghost view = { λ s. record { number = s.number; lines = lines s.rest.now } };

    ghost invariant = { λ s. s.number + length s.rest.now < 2 ^ 64 };
}

impl<'a> Script<'a> {
    ghost use Rattle.card_digits.specs.Lines.{lines};
    ghost use Rattle.replay_script.specs.Lines.{answer_of, next_line, behind};

    /// All the lines of a text: a line feed ends each, and the last may lack it.
    pub fn new(text: &'a [u8]) -> Script<'a>
        ensures { result ≡ record { number = 1; lines = lines text.now } }
    {
        Script {
            rest: text,
            number: 1,
        }
    }

    /// The number of the next line.
    pub fn number(&self) -> usize
        ensures { result ≡ self.now.number }
    {
        self.number
    }

    /// What the next line says, or its number where it is malformed. None where no line is left.
    pub fn next_line(&mut self, tables: &Tables) -> Option<Result<ScriptLine<'a>, MalformedLine>>
        ensures line { option_map answer_of result ≡ next_line tables.now self.old }
        ensures rest { self.new ≡ behind self.old }
    {
        let (line, behind) = first_line(self.rest)?;
        let number = self.number;
        self.rest = behind;
        self.number = number + 1;
        match read_line(tables, line) {
            Some(line) => Some(Ok(line)),
            None => Some(Err(MalformedLine(number))),
        }
    }
}
