// The box calls on lent slices: numbers in, a number back, an answer's floats written to what is lent for
// them. Crate beamnettle exports each under its name; include/beamnettle.h says what each does in words.
// Each contract gives the number and all that is lent afterwards outright.
#![tactic(auto)]

ghost use Rattle.std.specs.Prelude.{◌≡◌};
ghost use Rattle.boundary.specs.Answers.{after, whole_box_handed, box_handed, coverage_handed, bounds_handed, distance_handed, test_number};
ghost use Rattle.box_exports.specs.Calls.{transformed_lent, intersection_lent, rect_intersection_lent, coverage_lent};
ghost use Rattle.box_exports.specs.Calls.{bounds_lent, distance_lent, parallel_lent, contains_lent};

use boundary::HandOver;
use fault::Fault;
use geometry::Position;
use lent_floats::{BOUNDS, BOX, COVERAGE, FRAME};

// Fewer are lent than the call takes.
const TOO_SHORT: Fault = Fault::BufferTooShort;

pub fn transformed(b: &[f32], frame: &[f32], out: &mut [f32]) -> u8
    ensures value { result ≡ (whole_box_handed (transformed_lent b.now frame.now out.old)).number }
    ensures out_after { out.new ≡ after (whole_box_handed (transformed_lent b.now frame.now out.old)) out.old }
{
    if b.len() < BOX || frame.len() < FRAME || out.len() < BOX {
        return TOO_SHORT.number();
    }
    boxes::box_at(b, 0)
        .transformed(boxes::frame_at(frame, 0))
        .hand_over(out)
}

pub fn intersection(one: &[f32], two: &[f32], fringe: f32, out: &mut [f32]) -> u8
    ensures value { result ≡ (box_handed (intersection_lent one.now two.now fringe out.old)).number }
    ensures out_after { out.new ≡ after (box_handed (intersection_lent one.now two.now fringe out.old)) out.old }
{
    if one.len() < BOX || two.len() < BOX || out.len() < BOX {
        return TOO_SHORT.number();
    }
    overlap::intersection(boxes::box_at(one, 0), boxes::box_at(two, 0), fringe).hand_over(out)
}

pub fn rect_intersection(one: &[f32], two: &[f32], out: &mut [f32]) -> u8
    ensures value { result ≡ (box_handed (rect_intersection_lent one.now two.now out.old)).number }
    ensures out_after { out.new ≡ after (box_handed (rect_intersection_lent one.now two.now out.old)) out.old }
{
    if one.len() < BOX || two.len() < BOX || out.len() < BOX {
        return TOO_SHORT.number();
    }
    sides::rect_intersection(boxes::box_at(one, 0), boxes::box_at(two, 0)).hand_over(out)
}

pub fn coverage(b: &[f32], fringe: f32, out: &mut [f32]) -> u8
    ensures value { result ≡ (coverage_handed (coverage_lent b.now fringe out.old)).number }
    ensures out_after { out.new ≡ after (coverage_handed (coverage_lent b.now fringe out.old)) out.old }
{
    if b.len() < BOX || out.len() < COVERAGE {
        return TOO_SHORT.number();
    }
    covering::coverage(boxes::box_at(b, 0), fringe).hand_over(out)
}

pub fn bounds(b: &[f32], out: &mut [f32]) -> u8
    ensures value { result ≡ (bounds_handed (bounds_lent b.now out.old)).number }
    ensures out_after { out.new ≡ after (bounds_handed (bounds_lent b.now out.old)) out.old }
{
    if b.len() < BOX || out.len() < BOUNDS {
        return TOO_SHORT.number();
    }
    boxes::box_at(b, 0).bounds().hand_over(out)
}

pub fn distance(k: &[f32], x: f32, y: f32, out: &mut [f32]) -> u8
    ensures value { result ≡ (distance_handed (distance_lent k.now x y out.old)).number }
    ensures out_after { out.new ≡ after (distance_handed (distance_lent k.now x y out.old)) out.old }
{
    if k.len() < COVERAGE || out.len() < 1 {
        return TOO_SHORT.number();
    }
    lent_floats::coverage_in(k)
        .distance(Position { x, y })
        .hand_over(out)
}

pub fn parallel(one: &[f32], two: &[f32]) -> u8
    ensures { result ≡ test_number (parallel_lent one.now two.now) }
{
    if one.len() < BOX || two.len() < BOX {
        return TOO_SHORT.number();
    }
    boundary::test_number(beside::parallel(boxes::box_at(one, 0), boxes::box_at(two, 0)))
}

pub fn contains(k: &[f32], b: &[f32]) -> u8
    ensures { result ≡ test_number (contains_lent k.now b.now) }
{
    if k.len() < COVERAGE || b.len() < BOX {
        return TOO_SHORT.number();
    }
    boundary::test_number(lent_floats::coverage_in(k).contains(boxes::box_at(b, 0)))
}
