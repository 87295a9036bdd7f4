// A line's fields, which stand between blanks, and what may be wrong with a line.
#![tactic(auto)]

ghost use Rattle.std.specs.Prelude.{length};
ghost use Rattle.std.specs.Iterator.{at_most};

use arrayvec::ArrayVec;
use hex::FromHex;
use std::num::f32_from_bits_with_nan;
use thiserror::Error;

// The longest line, with the byte that ends it.
pub const MOST_LINE: usize = 262144;
// The most words of a drawing.
pub const MOST_WORDS: usize = 16384;
// The most boxes of a line's list.
pub const MOST_BOXES: usize = 257;
// The most floats: those of the most boxes, a safe area and a fringe.
pub const MOST_FLOATS: usize = 2581;

pub const MOST_VERBS: usize = 512;

// What is wrong with a line.
#[derive(Debug, Clone, Copy, PartialEq, Eq, Error)]
pub enum Problem {
    #[error("the line is longer than 262,143 bytes")]
    LineTooLong,
    #[error("no call has this name")]
    UnknownCall,
    #[error("the buffers are 'run' and 'next'")]
    UnknownBuffer,
    #[error("the line ends where a field should stand")]
    FieldMissing,
    #[error("the call takes no more fields")]
    FieldTooMany,
    #[error("a decimal number is missing, badly written or too large")]
    NotANumber,
    #[error("a float is not written as eight hexadecimal digits")]
    NotAFloat,
    #[error("the bytes are not written as pairs of hexadecimal digits")]
    NotHex,
    #[error("a verb or a byte is not a decimal number up to 255")]
    NotAByte,
    #[error("an ink buffer's number is not a decimal number up to 65,535")]
    NotSixteenBits,
    #[error("a buffer has at most 65,536 bytes")]
    BufferTooLong,
    #[error("an ink buffer has at most 8,200 numbers")]
    InkTooLong,
    #[error("a drawing takes at most 16,384 words")]
    TooManyWords,
    #[error("a line takes at most 2,581 floats")]
    TooManyFloats,
    #[error("an outline's line takes at most 512 verbs")]
    TooManyVerbs,
    #[error("a list's line takes at most 257 boxes")]
    TooManyBoxes,
    #[error("a list of copies has at most 4,097 boxes")]
    TooManyCopies,
}

// ---- one field's value

// The greatest number that a field may hold: without its last digit it is below 2^28.
const GREATEST: u32 = 2_684_354_559;

// A number in decimal digits, and nothing but digits.
fn decimal(digits: &[u8]) -> Option<u32> {
    if digits.is_empty() {
        return None;
    }
    let number = digits.iter().try_fold(0u32, |number, digit| {
        let digit = char::from(*digit).to_digit(10)?;
        number.checked_mul(10)?.checked_add(digit)
    })?;
    (number <= GREATEST).then_some(number)
}

// A number with or without a minus.
fn signed(field: &[u8]) -> Option<i32> {
    match field.strip_prefix(b"-") {
        Some(digits) => i32::try_from(-i64::from(decimal(digits)?)).ok(),
        None => i32::try_from(decimal(field)?).ok(),
    }
}

// A bit pattern in eight hexadecimal digits.
fn bit_pattern(field: &[u8]) -> Option<u32> {
    let bytes = <[u8; 4]>::from_hex(field).ok()?;
    Some(u32::from_be_bytes(bytes))
}

// What a field of a list holds.
trait Value: Sized {
    fn read(field: &[u8]) -> Result<Self, Problem>;
}

impl Value for f32 {
    fn read(field: &[u8]) -> Result<f32, Problem> {
        let bits = bit_pattern(field).ok_or(Problem::NotAFloat)?;
        Ok(f32_from_bits_with_nan(bits))
    }
}

// A verb.
impl Value for u8 {
    fn read(field: &[u8]) -> Result<u8, Problem> {
        let number = decimal(field).ok_or(Problem::NotAByte)?;
        u8::try_from(number).map_err(|_| Problem::NotAByte)
    }
}

// ---- a line's fields

fn is_blank(byte: u8) -> bool {
    byte <= b' '
}

// The fields of a line that are not yet read.
#[derive(Drop)]
pub struct Fields<'a> {
    rest: &'a [u8],
}

impl<'a> Iterator for Fields<'a> {
    type Item = &'a [u8];

    ghost remaining = { λ s. at_most (length s.rest.now) };

    fn next(&mut self) -> Option<&'a [u8]> {
        let rest = self.rest;
        let start = rest.iter().position(|byte| !is_blank(*byte))?;
        let behind = &rest[start + 1..];
        let length = behind
            .iter()
            .position(|byte| is_blank(*byte))
            .unwrap_or(behind.len());
        let (field, rest) = rest.split_at(start + 1 + length);
        self.rest = rest;
        Some(&field[start..])
    }
}

impl<'a> Fields<'a> {
    pub fn of(line: &'a [u8]) -> Self {
        Fields { rest: line }
    }

    // Whether the line ends here.
    pub fn at_end(mut self) -> Result<(), Problem> {
        match self.next() {
            Some(_) => Err(Problem::FieldTooMany),
            None => Ok(()),
        }
    }

    fn field(&mut self) -> Result<&'a [u8], Problem> {
        self.next().ok_or(Problem::FieldMissing)
    }

    // A number that is not negative.
    pub fn natural(&mut self) -> Result<usize, Problem> {
        let number = self.next().and_then(decimal).ok_or(Problem::NotANumber)?;
        Ok(number as usize)
    }

    pub fn word(&mut self) -> Result<i32, Problem> {
        self.next().and_then(signed).ok_or(Problem::NotANumber)
    }

    fn value<T: Value>(&mut self) -> Result<T, Problem> {
        T::read(self.field()?)
    }

    // ---- lists of fields

    // So many floats.
    pub fn floats<const N: usize>(&mut self) -> Result<[f32; N], Problem> {
        let mut floats = [0f32; N];
        for place in &mut floats {
            *place = self.value()?;
        }
        Ok(floats)
    }

    // So many floats, behind which the line ends.
    pub fn last_floats<const N: usize>(mut self) -> Result<[f32; N], Problem> {
        let floats = self.floats()?;
        self.at_end()?;
        Ok(floats)
    }

    // A number, which is at most so large, and so many values, behind those of a list.
    fn list<T: Value + Drop, const N: usize>(
        &mut self,
        list: &mut ArrayVec<T, N>,
        most: usize,
        too_many: Problem,
    ) -> Result<(), Problem> {
        let count = self.natural()?;
        if count > most {
            return Err(too_many);
        }
        for _ in 0..count {
            let _ = list.try_push(self.value()?);
        }
        Ok(())
    }

    // A number, and so many verbs.
    pub fn verbs(&mut self, verbs: &mut ArrayVec<u8, MOST_VERBS>) -> Result<(), Problem> {
        self.list(verbs, MOST_VERBS, Problem::TooManyVerbs)
    }

    // A number, which is at most so large, and so many floats.
    pub fn positions(
        &mut self,
        positions: &mut ArrayVec<f32, MOST_FLOATS>,
        most: usize,
    ) -> Result<(), Problem> {
        self.list(positions, most, Problem::TooManyFloats)
    }

    // The rest of the line as words.
    pub fn words(self, words: &mut ArrayVec<i32, MOST_WORDS>) -> Result<(), Problem> {
        for field in self {
            let word = signed(field).ok_or(Problem::NotANumber)?;
            words.try_push(word).map_err(|_| Problem::TooManyWords)?;
        }
        Ok(())
    }
}
