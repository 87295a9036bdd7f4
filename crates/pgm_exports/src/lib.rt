// The calls on PGM files, on lent slices: numbers in, a number back, a mask's record written to what is lent
// for it. Crate beamnettle exports each under its name; include/beamnettle.h says what each does in words.
// Each contract gives the number and all that is lent afterwards outright.
#![tactic(auto)]

ghost use Rattle.std.specs.Prelude.{◌≡◌, length};
ghost use Rattle.boundary.specs.Answers.{write_number, read_number, size_after, corner_after};
ghost use Rattle.ink.specs.Lent.{lent};
ghost use Rattle.pgm_exports.specs.Calls.{write_lent, file_written, read_lent, mask_read, ink_read};

use cells::Size;
use fault::Fault;

// How many numbers a size takes, and a corner.
const SIZE: usize = 2;

const CORNER: usize = 2;

pub fn write_pgm(mask: &[u8], width: usize, height: usize, file: &mut [u8]) -> u32
    ensures number { result ≡ write_number (write_lent width height mask.now file.old) }
    ensures file { file.new ≡ file_written width height mask.now file.old }
{
    boundary::write_number(pgm::write_pgm(mask, Size { width, height }, file))
}

// Refuses a file where no record can be written: no mask is lent and no ink, so that neither is changed.
fn refuse(file: &[u8], mask: &mut [u8], ink: &mut [u16]) -> u8
    ensures value { result ≡ read_number (read_lent file.now (lent mask.old ink.old) 0 0) }
    ensures mask_unchanged { mask.new ≡ mask.old }
    ensures ink_unchanged { ink.new ≡ ink.old }
{
    match pgm::read_pgm(file, &mut mask[0..0], &mut ink[0..0]) {
        Ok(_) => Fault::BufferTooShort.number(),
        Err(fault) => fault.number(),
    }
}

pub fn read_pgm(
    file: &[u8],
    mask: &mut [u8],
    ink: &mut [u16],
    size: &mut [usize],
    corner: &mut [i32],
) -> u8
    ensures number { result ≡ read_number (read_lent file.now (lent mask.old ink.old) (length size.old) (length corner.old)) }
    ensures cells { mask.new
        ≡ mask_read file.now mask.old ink.old (length size.old) (length corner.old) }
    ensures ink { ink.new
        ≡ ink_read file.now mask.old ink.old (length size.old) (length corner.old) }
    ensures size { size.new
        ≡ size_after (read_lent file.now (lent mask.old ink.old) (length size.old) (length corner.old)) size.old }
    ensures corner { corner.new
        ≡ corner_after (read_lent file.now (lent mask.old ink.old) (length size.old) (length corner.old)) corner.old }
{
    if size.len() < SIZE || corner.len() < CORNER {
        return refuse(file, mask, ink);
    }
    boundary::hand_record(pgm::read_pgm(file, mask, ink), size, corner)
}
