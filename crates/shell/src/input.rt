ghost use Rattle.std.specs.Prelude.{◌≡◌, ◌⊎◌, [], true, false, None, Some, IfOk, OnErr, OnOk, MatchOption};
ghost use Rattle.std.specs.Io.Buffered.{reader_remaining};
ghost use Rattle.shell.specs.Inputs.{Gives, GivesNext, HasEnded, IsReadOut, StayKnown};

use crate::failed::Failed;
use crate::numbered_record::NumberedRecord;
use script::{InputRecord, read_input_line};
use std::alloc::Global;
use std::collections::VecDeque;
use std::io::{BufRead, BufReader, Read, Write};
use std::marker::Model;

/// What is shown where the next line may be typed.
const PROMPT: &[u8] = b"sfbuild> ";

/// The records that are typed or sent, line by line. Contracts see the bytes that are still to be read, the records that wait, and how many
/// were given.
pub struct Input<R: Read + Drop, P: Write + Drop> {
    alloc: Global,
    reader: BufReader<R>,
    /// Where the prompt is shown, if it is.
    prompt: Option<P>,
    line: Vec<u8>,
    /// The records of the last line that were not given yet.
    waiting: VecDeque<InputRecord>,
    /// How many records were given.
    given: usize,
}

impl<R: Read + Drop, P: Write + Drop> Drop for Input<R, P> {
    fn drop(self) {
        let Input {
            alloc: _,
            reader: _,
            prompt: _,
            line: _,
            waiting: _,
            given: _,
        } = self;
    }
}

impl<R: Read + Drop, P: Write + Drop> Model for Input<R, P> {
    ghost use Rattle.std.specs.Io.Buffered.{reader_remaining};
    ghost use Rattle.shell.specs.Inputs.{InputValue};

    ghost Value = { InputValue };

    ghost view = { λ input. record {
      bytes = reader_remaining R.remaining input.reader;
      waiting = input.waiting.items;
      given = input.given;
    } };

    ghost invariant = { λ input. Unit {0} };
}

impl<R: Read + Drop, P: Write + Drop> Input<R, P> {
    pub fn new(alloc: Global, reader: R, prompt: Option<P>) -> Result<Input<R, P>, Failed>
        ensures { IfOk result (λ input. (input.bytes ≡ R.remaining reader) × (input.waiting ≡ []) × (input.given ≡ 0)) }
    {
        Ok(Input {
            alloc,
            reader: BufReader::new(alloc, reader)?,
            prompt,
            line: Vec::new(alloc),
            waiting: VecDeque::new(alloc),
            given: 0,
        })
    }

    /// The next record, for which it may wait; none where the input has ended. It breaks off only where it has to read, or has no number left.
    pub fn next(&mut self) -> Result<Option<NumberedRecord>, Failed>
        ensures next { IfOk result (λ found. MatchOption found (HasEnded self.old) (GivesNext self.old self.new)) }
        ensures end { result ≡ Ok None → IsReadOut self.old.bytes self.new.bytes }
        ensures waits { OnErr result ((self.old.waiting ≡ []) ⊎ (self.old.given ≡ usize.MAX)) }
    {
        if let Some(found) = self.take_waiting()? {
            return Ok(Some(found));
        }
        self.read_next()
    }

    /// The next of the records that wait, with its number.
    fn take_waiting(&mut self) -> Result<Option<NumberedRecord>, Failed>
        ensures next { IfOk result (λ found. MatchOption found ((self.old.waiting ≡ []) × (self.new ≡ self.old)) (GivesNext self.old self.new)) }
        ensures numbers { OnErr result (self.old.given ≡ usize.MAX) }
    {
        let Some(record) = self.waiting.pop_front() else {
            return Ok(None);
        };
        let number = self.given.checked_add(1).ok_or(Failed::CannotRead)?;
        self.given = number;
        Ok(Some(NumberedRecord { number, record }))
    }

    /// The next record where none waits: the first of the next line that has one.
    fn read_next(&mut self) -> Result<Option<NumberedRecord>, Failed>
        requires { self.old.waiting ≡ [] }
        ensures next { IfOk result (λ found. MatchOption found (HasEnded self.old) (GivesNext self.old self.new)) }
        ensures end { result ≡ Ok None → IsReadOut self.old.bytes self.new.bytes }
    {
        for _ in 0..u64::MAX {
            if !self.read_line()? {
                return Ok(None);
            }
            if let Some(found) = self.take_waiting()? {
                return Ok(Some(found));
            }
        }
        Err(Failed::CannotRead)
    }

    /// Reads the next line, and answers whether there is one.
    fn read_line(&mut self) -> Result<bool, Failed>
        requires { self.old.waiting ≡ [] }
        ensures read { result ≡ Ok true → Gives self.old [] self.new }
        ensures ended { result ≡ Ok false → HasEnded self.old }
        ensures known { OnOk result (StayKnown self.old.bytes self.new.bytes) }
        ensures end { result ≡ Ok false → IsReadOut self.old.bytes self.new.bytes }
    {
        self.show_prompt()?;
        self.line.clear();
        if self.reader.read_until(b'\n', &mut self.line)? == 0 {
            return Ok(false);
        }
        let told = read_input_line(self.alloc, self.line.as_slice())?;
        self.waiting = VecDeque::from(told);
        Ok(true)
    }

    fn show_prompt(&mut self) -> Result<(), Failed>
        ensures { self.new ≡ self.old }
    {
        if let Some(prompt) = &mut self.prompt {
            if prompt.write_all(PROMPT).is_err() || prompt.flush().is_err() {
                return Err(Failed::CannotWrite);
            }
        }
        Ok(())
    }
}
