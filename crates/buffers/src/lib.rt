// The buffers of the call runner, for masks and for their ink: filled, shown, looked at.
#![tactic(auto)]

use arrayvec::ArrayVec;
use fields::{Fields, Problem};
use std::io::{self, Write};
use writing::Failure;

pub const MOST_BYTES: usize = 65536;
// The most numbers of an ink buffer. No mask asks for more than 8,192.
pub const MOST_INK: usize = 8200;
// The numbers of an ink buffer at first: enough for every mask.
const FIRST_INK: usize = 8192;
// How many elements a list grows by at a time.
const BLOCK: usize = 256;

// A mask buffer and its ink buffer.
#[derive(Drop)]
pub struct Buffers {
    pub mask: ArrayVec<u8, MOST_BYTES>,
    pub ink: ArrayVec<u16, MOST_INK>,
}

impl Buffers {
    pub fn new() -> Self {
        let mut ink = ArrayVec::new();
        refill(&mut ink, 7, &[7; BLOCK], FIRST_INK);
        Buffers {
            mask: ArrayVec::new(),
            ink,
        }
    }
}

// The running mask's buffers and the next mask's.
#[derive(Drop)]
pub struct Held {
    pub run: Buffers,
    pub next: Buffers,
}

impl Held {
    pub fn new() -> Self {
        Held {
            run: Buffers::new(),
            next: Buffers::new(),
        }
    }

    // The buffers that the next field names.
    pub fn named(&mut self, fields: &mut Fields) -> Result<&mut Buffers, Problem> {
        match fields.next() {
            Some(b"run") => Ok(&mut self.run),
            Some(b"next") => Ok(&mut self.next),
            _ => Err(Problem::UnknownBuffer),
        }
    }
}

// ---- filled

// Makes a list so long, as far as there is room, with each element the same: a block holds some of them.
fn refill<T: Copy + Default + Drop, const N: usize>(
    list: &mut ArrayVec<T, N>,
    element: T,
    block: &[T],
    length: usize,
) {
    list.truncate(length);
    for place in list.as_mut_slice() {
        *place = element;
    }
    let more = length.saturating_sub(list.len());
    for _ in 0..more / BLOCK {
        let _ = list.try_extend_from_slice(block);
    }
    if let Some(rest) = block.get(..more % BLOCK) {
        let _ = list.try_extend_from_slice(rest);
    }
}

// Reads the bytes of a line's last field, in pairs of hexadecimal digits, into a list, if nothing is wrong.
pub fn read_bytes(mut fields: Fields, bytes: &mut ArrayVec<u8, MOST_BYTES>) -> Result<(), Problem> {
    let field = fields.next().ok_or(Problem::FieldMissing)?;
    let digits = if field == b"-".as_slice() { &[] } else { field };
    if digits.len() % 2 != 0 || !digits.iter().all(u8::is_ascii_hexdigit) {
        return Err(Problem::NotHex);
    }
    if digits.len() / 2 > MOST_BYTES {
        return Err(Problem::BufferTooLong);
    }
    fields.at_end()?;
    refill(bytes, 0, &[0; BLOCK], digits.len() / 2);
    // Pairs of digits do not fail where there is room for all.
    hex::decode_to_slice(digits, bytes.as_mut_slice()).map_err(|_| Problem::NotHex)
}

pub fn buf(out: &mut impl Write, buffers: &mut Buffers, fields: Fields) -> Result<(), Failure> {
    read_bytes(fields, &mut buffers.mask)?;
    Ok(writing::done(out)?)
}

// A length and a number, if there is room for so many of it and if it is an element.
fn read_alike<T: TryFrom<usize> + Drop>(
    mut fields: Fields,
    most: usize,
    too_long: Problem,
    too_large: Problem,
) -> Result<(usize, T), Problem>
where
    T::Error: Drop,
{
    let length = fields.natural()?;
    let number = fields.natural()?;
    if length > most {
        return Err(too_long);
    }
    let element = T::try_from(number).map_err(|_| too_large)?;
    fields.at_end()?;
    Ok((length, element))
}

pub fn bufn(out: &mut impl Write, buffers: &mut Buffers, fields: Fields) -> Result<(), Failure> {
    let (length, byte) = read_alike::<u8>(
        fields,
        MOST_BYTES,
        Problem::BufferTooLong,
        Problem::NotAByte,
    )?;
    refill(&mut buffers.mask, byte, &[byte; BLOCK], length);
    Ok(writing::done(out)?)
}

// Makes an ink buffer so long, each number the same.
pub fn ink(out: &mut impl Write, buffers: &mut Buffers, fields: Fields) -> Result<(), Failure> {
    let (length, number) = read_alike::<u16>(
        fields,
        MOST_INK,
        Problem::InkTooLong,
        Problem::NotSixteenBits,
    )?;
    refill(&mut buffers.ink, number, &[number; BLOCK], length);
    Ok(writing::done(out)?)
}

// ---- shown

// A list, or a dash where it is empty.
fn show_list<T, W: Write, F: FnOnce(&mut W, &[T]) -> io::Result<()>>(
    out: &mut W,
    list: &[T],
    fields: Fields,
    write: F,
) -> Result<(), Failure>
    requires { F.IsAlwaysCallable write }
{
    fields.at_end()?;
    if list.is_empty() {
        write!(out, "-")?;
    }
    write(out, list)?;
    Ok(writeln!(out)?)
}

pub fn show(out: &mut impl Write, mask: &[u8], fields: Fields) -> Result<(), Failure> {
    show_list(out, mask, fields, |out, mask| writing::hex(out, mask))
}

pub fn show_ink(out: &mut impl Write, ink: &[u16], fields: Fields) -> Result<(), Failure> {
    show_list(out, ink, fields, |out, ink| writing::numbers(out, ink))
}

// ---- looked at

// A cell's shade, from none to all.
fn shade(byte: u8) -> char {
    match byte {
        0..=25 => ' ',
        26..=76 => '.',
        77..=127 => ':',
        128..=178 => '+',
        179..=229 => '#',
        230..=255 => '@',
    }
}

// A line for each row that the mask has whole; a row in part ends no line.
fn picture_cells(out: &mut impl Write, mask: &[u8], width: usize, height: usize) -> io::Result<()> {
    if width == 0 {
        return Ok(());
    }
    for row in mask.chunks(width).take(height) {
        for byte in row {
            write!(out, "{}", shade(*byte))?;
        }
        if row.len() == width {
            writeln!(out)?;
        }
    }
    Ok(())
}

pub fn picture(out: &mut impl Write, mask: &[u8], mut fields: Fields) -> Result<(), Failure> {
    let width = fields.natural()?;
    let height = fields.natural()?;
    fields.at_end()?;
    Ok(picture_cells(out, mask, width, height)?)
}
