// Laying the next mask on the running one, from a line to its answer.
#![tactic(auto)]

use buffers::Buffers;
use fields::Fields;
use laying::Offset;
use std::io::Write;
use writing::Failure;

// Lays the next mask on the running one, by an offset.
pub fn lay(
    out: &mut impl Write,
    run: &mut Buffers,
    next: &Buffers,
    mut fields: Fields,
) -> Result<(), Failure> {
    let own = record_fields::size_at(&mut fields)?;
    let other = record_fields::size_at(&mut fields)?;
    let offset = Offset {
        x: fields.word()?,
        y: fields.word()?,
    };
    fields.at_end()?;
    mask::intersect(
        run.mask.as_mut_slice(),
        run.ink.as_mut_slice(),
        own.size,
        next.mask.as_slice(),
        other.size,
        offset,
    )?;
    Ok(writing::done(out)?)
}

// Lays the next mask on the running one, by corners.
pub fn lay_at(
    out: &mut impl Write,
    run: &mut Buffers,
    next: &Buffers,
    mut fields: Fields,
) -> Result<(), Failure> {
    let own = record_fields::record_at(&mut fields)?;
    let other = record_fields::record_at(&mut fields)?;
    fields.at_end()?;
    mask::intersect_placed(
        run.mask.as_mut_slice(),
        run.ink.as_mut_slice(),
        own,
        next.mask.as_slice(),
        other,
    )?;
    Ok(writing::done(out)?)
}
