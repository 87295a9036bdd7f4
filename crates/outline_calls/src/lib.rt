// The calls on outlines.
#![tactic(auto)]

use arrayvec::ArrayVec;
use fields::{Fields, MOST_FLOATS, MOST_VERBS, Problem};
use std::io::Write;
use writing::Failure;

// How many floats a frame takes.
const FRAME: usize = 6;

// An outline's verbs and positions.
#[derive(Drop)]
struct Outline {
    verbs: ArrayVec<u8, MOST_VERBS>,
    positions: ArrayVec<f32, MOST_FLOATS>,
}

impl Outline {
    fn new() -> Self {
        Outline {
            verbs: ArrayVec::new(),
            positions: ArrayVec::new(),
        }
    }

    // Reads an outline of at most so many positions.
    fn read(&mut self, fields: &mut Fields, most: usize) -> Result<(), Problem> {
        fields.verbs(&mut self.verbs)?;
        fields.positions(&mut self.positions, most)
    }

    // Reads an outline behind which the line ends.
    fn read_last(&mut self, mut fields: Fields) -> Result<(), Problem> {
        self.read(&mut fields, MOST_FLOATS)?;
        fields.at_end()
    }
}

pub fn fit(out: &mut impl Write, fields: Fields) -> Result<(), Failure> {
    let mut outline = Outline::new();
    outline.read_last(fields)?;
    let found = fit::fit(outline.verbs.as_slice(), outline.positions.as_slice())?;
    Ok(answers::boxed(out, found)?)
}

pub fn fit_outline(out: &mut impl Write, fields: Fields) -> Result<(), Failure> {
    let mut outline = Outline::new();
    outline.read_last(fields)?;
    let found = fit::fit_outline(outline.verbs.as_slice(), outline.positions.as_slice())?;
    Ok(answers::outlined(out, found)?)
}

pub fn fit_with_cut(out: &mut impl Write, fields: Fields) -> Result<(), Failure> {
    let mut outline = Outline::new();
    outline.read_last(fields)?;
    let found = fit::fit_with_cut(outline.verbs.as_slice(), outline.positions.as_slice())?;
    Ok(answers::cut(out, found)?)
}

// A frame stands behind the positions.
pub fn upright_rect(out: &mut impl Write, mut fields: Fields) -> Result<(), Failure> {
    let mut outline = Outline::new();
    outline.read(&mut fields, MOST_FLOATS - FRAME)?;
    let frame = fields.last_floats::<FRAME>()?;
    let transform = boxes::frame_at(&frame, 0);
    let verbs = outline.verbs.as_slice();
    let found = upright_rect::upright_rect(verbs, outline.positions.as_slice(), transform)?;
    Ok(answers::boxed(out, found)?)
}
