// The calls on a list of boxes, from their lines: `touch` and `inside`, and the same of a list of copies.
#![tactic(auto)]

use fields::{Fields, MOST_BOXES, Problem};
use std::io::Write;
use writing::Failure;

// How many floats a box takes.
const BOX: usize = 10;
// The floats of the most boxes that a line has.
const LIST_FLOATS: usize = 2570;
// The most boxes of a sheet: one more than a list may have.
const MOST_SHEET: usize = 4097;
// Their floats.
const SHEET_FLOATS: usize = 40970;

// The list whose boxes a line has.
fn listed<'s>(
    fields: &mut Fields,
    floats: &'s mut [f32; LIST_FLOATS],
) -> Result<&'s [f32], Problem> {
    let count = fields.natural()?;
    if count > MOST_BOXES {
        return Err(Problem::TooManyBoxes);
    }
    let list = &mut floats[..count * BOX];
    for b in list.chunks_exact_mut(BOX) {
        b.copy_from_slice(&fields.floats::<BOX>()?);
    }
    Ok(list)
}

// A list of copies of a box, with another box at a place, if the list has that place.
fn copies<'s>(
    fields: &mut Fields,
    sheet: &'s mut [f32; SHEET_FLOATS],
) -> Result<&'s [f32], Problem> {
    let count = fields.natural()?;
    if count > MOST_SHEET {
        return Err(Problem::TooManyCopies);
    }
    let copied = fields.floats::<BOX>()?;
    let place = fields.natural()?;
    let other = fields.floats::<BOX>()?;
    let list = &mut sheet[..count * BOX];
    for (i, b) in list.chunks_exact_mut(BOX).enumerate() {
        b.copy_from_slice(if i == place { &other } else { &copied });
    }
    Ok(list)
}

// Answers a call on a list, from a fringe and a point.
fn touch_list(out: &mut impl Write, list: &[f32], behind: [f32; 3]) -> Result<(), Failure> {
    let [fringe, x, y] = behind;
    let found = touch::touch_floats(list, list.len() / BOX, fringe, x, y)?;
    Ok(answers::touch(out, found)?)
}

// Answers a call on a list, from a safe area and a fringe.
fn inside_list(out: &mut impl Write, list: &[f32], f: [f32; 11]) -> Result<(), Failure> {
    let safe = boxes::box_at(&f, 0);
    let found = inside::inside_floats(list, list.len() / BOX, safe, f[10])?;
    Ok(answers::inside(out, found)?)
}

fn touch(out: &mut impl Write, mut fields: Fields) -> Result<(), Failure> {
    let mut floats = [0f32; LIST_FLOATS];
    let list = listed(&mut fields, &mut floats)?;
    touch_list(out, list, fields.last_floats()?)
}

fn touchn(out: &mut impl Write, mut fields: Fields) -> Result<(), Failure> {
    let mut sheet = [0f32; SHEET_FLOATS];
    let list = copies(&mut fields, &mut sheet)?;
    touch_list(out, list, fields.last_floats()?)
}

fn inside(out: &mut impl Write, mut fields: Fields) -> Result<(), Failure> {
    let mut floats = [0f32; LIST_FLOATS];
    let list = listed(&mut fields, &mut floats)?;
    inside_list(out, list, fields.last_floats()?)
}

fn insiden(out: &mut impl Write, mut fields: Fields) -> Result<(), Failure> {
    let mut sheet = [0f32; SHEET_FLOATS];
    let list = copies(&mut fields, &mut sheet)?;
    inside_list(out, list, fields.last_floats()?)
}

// Answers the call that has a name, with the fields behind it.
pub fn answer(out: &mut impl Write, name: &[u8], fields: Fields) -> Result<(), Failure> {
    match name {
        b"touch" => touch(out, fields),
        b"touchn" => touchn(out, fields),
        b"inside" => inside(out, fields),
        b"insiden" => insiden(out, fields),
        _ => Err(Failure::Problem(Problem::UnknownCall)),
    }
}
