// Drawing, from a line to its answer.
#![tactic(auto)]

use arrayvec::ArrayVec;
use buffers::Buffers;
use cells::MaskRecord;
use fields::Fields;
use std::io::Write;
use writing::Failure;

// Scratch that is lent at most. No drawing asks for more than 34,816 floats and 4,161 counters, so
// that a longer one changes no answer.
const MOST_SCRATCH_FLOATS: usize = 40000;

const MOST_SCRATCH_COUNTERS: usize = 5000;

// Draws into a mask of this record, with the fields that stand behind it, over scratch that holds
// rubbish first.
fn draw_record(
    out: &mut impl Write,
    buffers: &mut Buffers,
    record: MaskRecord,
    mut fields: Fields,
) -> Result<(), Failure> {
    let float_count = fields.natural()?.min(MOST_SCRATCH_FLOATS);
    let counter_count = fields.natural()?.min(MOST_SCRATCH_COUNTERS);
    let mut words = ArrayVec::new();
    fields.words(&mut words)?;
    let mut floats = [0.5f32; MOST_SCRATCH_FLOATS];
    let mut counters = [7u64; MOST_SCRATCH_COUNTERS];
    mask::rasterize_into(
        buffers.mask.as_mut_slice(),
        buffers.ink.as_mut_slice(),
        record,
        words.as_slice(),
        &mut floats[..float_count],
        &mut counters[..counter_count],
    )?;
    Ok(writing::done(out)?)
}

// Draws into a mask at (0, 0).
pub fn draw(
    out: &mut impl Write,
    buffers: &mut Buffers,
    mut fields: Fields,
) -> Result<(), Failure> {
    let record = record_fields::size_at(&mut fields)?;
    draw_record(out, buffers, record, fields)
}

// Draws into a mask at a corner of the sheet.
pub fn draw_at(
    out: &mut impl Write,
    buffers: &mut Buffers,
    mut fields: Fields,
) -> Result<(), Failure> {
    let record = record_fields::record_at(&mut fields)?;
    draw_record(out, buffers, record, fields)
}
