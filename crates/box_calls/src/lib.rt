// The calls on boxes, from their floats.
#![tactic(auto)]

use std::io::Write;
use writing::Failure;

pub fn transformed(out: &mut impl Write, f: [f32; 16]) -> Result<(), Failure> {
    let found = boxes::box_at(&f, 0).transformed(boxes::frame_at(&f, 10))?;
    Ok(answers::boxed(out, Some(found))?)
}

pub fn bounds(out: &mut impl Write, f: [f32; 10]) -> Result<(), Failure> {
    let found = boxes::box_at(&f, 0).bounds()?;
    Ok(answers::bounds(out, found)?)
}

pub fn coverage(out: &mut impl Write, f: [f32; 11]) -> Result<(), Failure> {
    let found = covering::coverage(boxes::box_at(&f, 0), f[10])?;
    Ok(answers::coverage(out, found)?)
}

pub fn intersection(out: &mut impl Write, f: [f32; 21]) -> Result<(), Failure> {
    let found = overlap::intersection(boxes::box_at(&f, 0), boxes::box_at(&f, 10), f[20])?;
    Ok(answers::boxed(out, found)?)
}

pub fn rect_intersection(out: &mut impl Write, f: [f32; 20]) -> Result<(), Failure> {
    let found = sides::rect_intersection(boxes::box_at(&f, 0), boxes::box_at(&f, 10))?;
    Ok(answers::boxed(out, found)?)
}

pub fn parallel(out: &mut impl Write, f: [f32; 20]) -> Result<(), Failure> {
    let holds = beside::parallel(boxes::box_at(&f, 0), boxes::box_at(&f, 10))?;
    Ok(writing::yes_or_no(out, holds)?)
}
