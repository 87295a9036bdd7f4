// The calls on a clip, from their floats: beside a scissor or a fill, or as a coverage.
#![tactic(auto)]

use clip_coverage::ClipCoverage;
use geometry::{Bounds, Position};
use std::io::Write;
use writing::Failure;

// ---- a clip, a scissor or a fill, and the fringe

pub fn with_scissor(out: &mut impl Write, f: [f32; 21]) -> Result<(), Failure> {
    let found = scissor::with_scissor(boxes::box_at(&f, 0), boxes::box_at(&f, 10), f[20])?;
    Ok(answers::both(out, found)?)
}

pub fn trimmed_scissor(out: &mut impl Write, f: [f32; 21]) -> Result<(), Failure> {
    let found = scissor::trimmed_scissor(boxes::box_at(&f, 0), boxes::box_at(&f, 10), f[20])?;
    Ok(answers::boxed(out, found)?)
}

pub fn rect_fill(out: &mut impl Write, f: [f32; 21]) -> Result<(), Failure> {
    let found = fill::rect_fill(boxes::box_at(&f, 0), boxes::box_at(&f, 10), f[20])?;
    Ok(answers::filled(out, found)?)
}

// ---- a coverage

fn coverage_of(k: [f32; 11]) -> ClipCoverage {
    let [la, lb, lc, ld, ox, oy, ex, ey, rx, ry, strays] = k;
    ClipCoverage {
        la,
        lb,
        lc,
        ld,
        ox,
        oy,
        ex,
        ey,
        rx,
        ry,
        strays,
    }
}

pub fn contains(out: &mut impl Write, k: [f32; 11], b: [f32; 10]) -> Result<(), Failure> {
    let holds = coverage_of(k).contains(boxes::box_at(&b, 0))?;
    Ok(writing::yes_or_no(out, holds)?)
}

pub fn distance(out: &mut impl Write, k: [f32; 11], [x, y]: [f32; 2]) -> Result<(), Failure> {
    let distance = coverage_of(k).distance(Position { x, y })?;
    Ok(answers::distance(out, distance)?)
}

pub fn reach(out: &mut impl Write, k: [f32; 11]) -> Result<(), Failure> {
    Ok(answers::reach(out, device_bounds::reach(coverage_of(k)))?)
}

pub fn holds(out: &mut impl Write, k: [f32; 11], b: [f32; 4]) -> Result<(), Failure> {
    let [minx, miny, maxx, maxy] = b;
    let bounds = Bounds {
        minx,
        miny,
        maxx,
        maxy,
    };
    let holds = device_bounds::holds(coverage_of(k), bounds);
    Ok(writing::yes_or_no(out, holds)?)
}
