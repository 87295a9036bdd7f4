// The calls on PGM files, from a line to its answer.
#![tactic(auto)]

use arrayvec::ArrayVec;
use buffers::{Buffers, MOST_BYTES};
use fields::{Fields, Problem};
use std::io::Write;
use writing::Failure;

// Writes a mask to a file that holds rubbish first.
pub fn write_pgm(out: &mut impl Write, mask: &[u8], mut fields: Fields) -> Result<(), Failure> {
    let size = record_fields::size_at(&mut fields)?.size;
    let room = fields.natural()?;
    let mut file = [7u8; MOST_BYTES];
    let file = file.get_mut(..room).ok_or(Problem::BufferTooLong)?;
    fields.at_end()?;
    let length = pgm::write_pgm(mask, size, file)?;
    Ok(answers::written(out, length, file)?)
}

// Reads a file into a mask and its ink.
pub fn read_pgm(
    out: &mut impl Write,
    buffers: &mut Buffers,
    fields: Fields,
) -> Result<(), Failure> {
    let mut file = ArrayVec::new();
    buffers::read_bytes(fields, &mut file)?;
    let record = pgm::read_pgm(
        file.as_slice(),
        buffers.mask.as_mut_slice(),
        buffers.ink.as_mut_slice(),
    )?;
    Ok(answers::read(out, record)?)
}
