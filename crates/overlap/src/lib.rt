// What two boxes with parallel sides both cover, with round corners: `intersection` of femtovg's
// clip/shape.rs. `one` is the Rust's self, in whose frame `two` is placed.
//
// A call refuses as document 01 says and else answers what the Rust does. What it rests on ends in
// `_unchecked` and takes any floats. Each contract gives the answer outright, by a definition of specs/.
#![tactic(auto)]

ghost use Rattle.std.specs.Prelude.{◌≡◌, ◌<◌};
ghost use Rattle.overlap.specs.Overlap.{with_corners_of, leaves_one_of, leaves_two_of, near_of, follows_of, chosen_of};
ghost use Rattle.overlap.specs.Overlap.{round_overlap_of, corner_overlap_of, overlap_of, intersection_within_of};
ghost use Rattle.overlap.specs.Calls.{intersection_call};

use beside::Placed;
use clip_coverage::ClipCoverage;
use fault::Fault;
use geometry::Position;
use shape::RoundedBox;
use sides::Sides;

// A box with round corners, as far as its extent allows.
#[tactic(auto, unfolding(crate::specs::Overlap::with_corners_of))]
fn with_corners(b: RoundedBox, rx: f32, ry: f32) -> RoundedBox
    ensures { result ≡ with_corners_of b rx ry }
{
    RoundedBox {
        rx: float::min(rx, b.ex),
        ry: float::min(ry, b.ey),
        ..b
    }
}

// Whether `two` is a rect whose sides all lie at or past those of `one`, which it leaves as it is.
#[tactic(auto, unfolding(crate::specs::Overlap::leaves_one_of, sides::specs::Shared::sides_are_of))]
fn leaves_one(one: RoundedBox, two: RoundedBox, s: Sides) -> bool
    ensures { result ≡ leaves_one_of one two s }
{
    sides::square(two) && s == Sides::own(one)
}

// Whether `one` is a rect whose sides all lie at or past those of a box placed in its frame, which it
// leaves as it is.
#[tactic(auto, unfolding(crate::specs::Overlap::leaves_two_of, sides::specs::Shared::sides_are_of))]
fn leaves_two(one: RoundedBox, p: Placed, s: Sides) -> bool
    ensures { result ≡ leaves_two_of one p s }
{
    sides::square(one) && s == Sides::placed(p)
}

// Whether a point is within `slack` of the further of two boxes' edges.
#[tactic(auto, unfolding(crate::specs::Overlap::near_of))]
fn near(mine: ClipCoverage, theirs: ClipCoverage, slack: f32, p: Position) -> bool
    ensures { result ≡ near_of mine theirs slack p }
{
    let one = mine.distance_unchecked(p);
    let two = theirs.distance_unchecked(p);
    float::abs(float::max(one, two)) <= slack
}

// Whether the outline of `both` stays within `slack` of the further of two boxes' edges.
fn follows(both: RoundedBox, mine: ClipCoverage, theirs: ClipCoverage, slack: f32) -> bool
    ensures { result ≡ follows_of both mine theirs slack }
{
    both.every_outline_point(|p| near(mine, theirs, slack, p))
}

// The first of two candidates that follows the edges of two boxes.
fn chosen(
    first: RoundedBox,
    second: RoundedBox,
    mine: ClipCoverage,
    theirs: ClipCoverage,
    slack: f32,
) -> Option<RoundedBox>
    ensures { result ≡ chosen_of first second mine theirs slack }
{
    if follows(first, mine, theirs, slack) {
        return Some(first);
    }
    if follows(second, mine, theirs, slack) {
        return Some(second);
    }
    None
}

// The first of two candidates that follows the edges of `one` and `two`.
#[tactic(auto, unfolding(crate::specs::Overlap::round_overlap_of))]
fn round_overlap(
    one: RoundedBox,
    two: RoundedBox,
    first: RoundedBox,
    second: RoundedBox,
    fringe: f32,
    slack: f32,
) -> Option<RoundedBox>
    ensures { result ≡ round_overlap_of one two first second fringe slack }
{
    let Some(mine) = covering::coverage_unchecked(one, fringe) else {
        return None;
    };
    let Some(theirs) = covering::coverage_unchecked(two, fringe) else {
        return None;
    };
    chosen(first, second, mine, theirs, slack)
}

// The overlap of `one` with `two`, which is placed at p and shares the sides s with it, where a corner
// is round.
#[tactic(auto, unfolding(crate::specs::Overlap::corner_overlap_of))]
fn corner_overlap(
    one: RoundedBox,
    two: RoundedBox,
    p: Placed,
    s: Sides,
    fringe: f32,
    slack: f32,
) -> Option<RoundedBox>
    ensures { result ≡ corner_overlap_of one two p s fringe slack }
{
    let both = sides::between(one, s);
    let theirs = with_corners(both, p.rx, p.ry);
    if leaves_two(one, p, s) {
        return Some(theirs);
    }
    let mine = with_corners(both, one.rx, one.ry);
    round_overlap(one, two, theirs, mine, fringe, slack)
}

// The overlap, whatever the corners.
#[tactic(auto, unfolding(crate::specs::Overlap::overlap_of))]
fn overlap(
    one: RoundedBox,
    two: RoundedBox,
    p: Placed,
    s: Sides,
    fringe: f32,
    slack: f32,
) -> Option<RoundedBox>
    ensures { result ≡ overlap_of one two p s fringe slack }
{
    if sides::both_square(one, two) {
        return Some(with_corners(sides::between(one, s), 0.0, 0.0));
    }
    if leaves_one(one, two, s) {
        return Some(one);
    }
    corner_overlap(one, two, p, s, fringe, slack)
}

#[tactic(auto, unfolding(crate::specs::Overlap::intersection_within_of))]
pub fn intersection_within_unchecked(
    one: RoundedBox,
    two: RoundedBox,
    fringe: f32,
    slack: f32,
) -> Option<RoundedBox>
    ensures { result ≡ intersection_within_of one two fringe slack }
{
    let Some(p) = beside::alongside(one, two) else {
        return None;
    };
    let s = Sides::shared(one, p);
    if s.apart() {
        return None;
    }
    overlap(one, two, p, s, fringe, slack)
}

// What both `one` and `two` cover, as one box within CONTAINMENT_SLACK, when their sides are
// parallel: exactly for two rectangles; with round corners, the box with the nearer of each pair
// of sides and the corners of one of the two, when its outline stays close to both.
// Ruled out: a fault of the second box told before one of the first; no box for two square boxes
// at a fringe of 0, which they do not ask.
pub fn intersection(
    one: RoundedBox,
    two: RoundedBox,
    fringe: f32,
) -> Result<Option<RoundedBox>, Fault>
    ensures { result ≡ intersection_call one two fringe }
{
    beside::pair_fringe_check(one, two, fringe)?;
    Ok(intersection_within_unchecked(one, two, fringe, ClipCoverage::CONTAINMENT_SLACK))
}
