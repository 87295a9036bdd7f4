// Input, read line by line.
#![tactic(auto)]

ghost use Rattle.std.specs.Prelude.{◌≤◌};

use fields::{MOST_LINE, Problem};
use std::io::{self, Read};
use writing::Failure;

const CHUNK: usize = 65536;

// What is read and not yet used: the bytes of a chunk from `at` up to `have`.
#[derive(Clone, Copy)]
pub struct Input {
    pub at: usize,
    pub have: usize,
}

// The lines of a reader, and the chunk of it that was read last.
#[derive(Drop)]
pub struct Lines<R> {
    reader: R,
    chunk: [u8; CHUNK],
    input: Input,
    ghost in_order: { input.at ≤ input.have },
    ghost in_chunk: { input.have ≤ 65536 },
}

impl<R: Read> Lines<R> {
    pub fn new(reader: R) -> Self {
        Lines {
            reader,
            chunk: [0; CHUNK],
            input: Input { at: 0, have: 0 },
        }
    }

    // Reads more where all that was read is used: nothing where the input has ended.
    fn refill(&mut self) -> io::Result<()> {
        let Input { at, have } = self.input;
        if at == have {
            let have = self.reader.read(&mut self.chunk)?;
            self.input = Input { at: 0, have };
        }
        Ok(())
    }

    fn unread(&self) -> &[u8] {
        let Input { at, have } = self.input;
        &self.chunk[at..have]
    }

    // Reads a line to a place that has room for the longest, if there is one more. The turns are counted,
    // up to a number that no line uses up.
    pub fn read_line<'l>(
        &mut self,
        line: &'l mut [u8; MOST_LINE],
    ) -> Result<Option<&'l [u8]>, Failure> {
        let mut length = 0usize;
        let mut found = false;
        for _ in 0..u64::MAX {
            self.refill()?;
            let unread = self.unread();
            if unread.is_empty() {
                break;
            }
            found = true;
            let end = unread.iter().position(|byte| *byte == b'\n');
            let part = &unread[..end.unwrap_or(unread.len())];
            let longer = length.saturating_add(part.len());
            if let Some(place) = line.get_mut(length..longer) {
                place.copy_from_slice(part);
            }
            length = longer;
            let used = part.len() + usize::from(end.is_some());
            let Input { at, have } = self.input;
            self.input.at = have.min(at + used);
            if end.is_some() {
                break;
            }
        }
        if length >= MOST_LINE {
            return Err(Failure::Problem(Problem::LineTooLong));
        }
        Ok(found.then_some(&line[..length]))
    }
}
