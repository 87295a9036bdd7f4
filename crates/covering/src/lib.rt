// The coverage of a box: `RoundedBox::coverage` of femtovg's clip/shape.rs, and document 01's touch of
// one box.
//
// A call refuses as document 01 says and else answers what the Rust does. What it rests on ends in
// `_unchecked` and takes any floats. Each contract gives the answer outright, by a definition of specs/.
#![tactic(auto)]

ghost use Rattle.std.specs.Prelude.{◌≡◌};
ghost use Rattle.covering.specs.Coverage.{invertible_of, uncovered_of, per_fringe_of, thin_of, tight_of, kept_radii_of, coverage_of};
ghost use Rattle.covering.specs.Touches.{touches_of};
ghost use Rattle.covering.specs.Calls.{coverage_check_of, coverage_call, touches_call};

use clip_coverage::ClipCoverage;
use fault::{Check, Fault};
use geometry::{Position, Transform2D};
use shape::RoundedBox;

// ---- coverage

#[tactic(auto, unfolding(crate::specs::Coverage::invertible_of))]
fn invertible(t: Transform2D) -> bool
    ensures { result ≡ invertible_of t }
{
    let determinant = t.a * t.d - t.c * t.b;
    let spans = (t.a * t.a + t.b * t.b) * (t.c * t.c + t.d * t.d);
    determinant * determinant > ClipCoverage::MIN_AXIS_SPREAD * spans && float::is_finite(spans)
}

// Whether a frame has no coverage, whatever the box: it all but collapses, or there is no fringe.
#[tactic(auto, unfolding(crate::specs::Coverage::uncovered_of))]
fn uncovered(t: Transform2D, fringe: f32) -> bool
    ensures { result ≡ uncovered_of t fringe }
{
    !invertible(t) || fringe <= 0.0
}

// One fringe width in a box's own coordinates, across each pair of its sides, from the inverse of its
// frame.
#[tactic(auto, unfolding(crate::specs::Coverage::per_fringe_of))]
pub fn per_fringe(inverse: Transform2D, fringe: f32) -> Position
    ensures { result ≡ per_fringe_of inverse fringe }
{
    Position {
        x: roots::hypot(inverse.a, inverse.c) * fringe,
        y: roots::hypot(inverse.b, inverse.d) * fringe,
    }
}

// Whether a box is thinner than a pixel.
#[tactic(auto, unfolding(crate::specs::Coverage::thin_of))]
fn thin(ex: f32, ey: f32) -> bool
    ensures { result ≡ thin_of ex ey }
{
    ex < ClipCoverage::MIN_HALF_EXTENT || ey < ClipCoverage::MIN_HALF_EXTENT
}

// Whether a corner is too tight to tell from square.
#[tactic(auto, unfolding(crate::specs::Coverage::tight_of))]
fn tight(rx: f32, ry: f32) -> bool
    ensures { result ≡ tight_of rx ry }
{
    rx < ClipCoverage::SQUARE_CORNER_BELOW || ry < ClipCoverage::SQUARE_CORNER_BELOW
}

#[tactic(auto, unfolding(crate::specs::Coverage::kept_radii_of))]
fn kept_radii(rx: f32, ry: f32) -> Position
    ensures { result ≡ kept_radii_of rx ry }
{
    if tight(rx, ry) {
        return Position { x: 0.0, y: 0.0 };
    }
    Position { x: rx, y: ry }
}

#[tactic(auto, unfolding(crate::specs::Coverage::coverage_of))]
pub fn coverage_unchecked(b: RoundedBox, fringe: f32) -> Option<ClipCoverage>
    ensures { result ≡ coverage_of b fringe }
{
    let frame = b.frame;
    if uncovered(frame, fringe) {
        return None;
    }
    let i = frame.inverse();
    let per = per_fringe(i, fringe);
    let ex = b.ex / per.x;
    let ey = b.ey / per.y;
    if thin(ex, ey) {
        return None;
    }
    let radii = kept_radii(b.rx / per.x, b.ry / per.y);
    Some(ClipCoverage {
        la: i.a / per.x,
        lb: i.c / per.x,
        lc: i.b / per.y,
        ld: i.d / per.y,
        ox: i.x / per.x,
        oy: i.y / per.y,
        ex,
        ey,
        rx: radii.x,
        ry: radii.y,
        strays: 0.0,
    })
}

fn coverage_check(b: RoundedBox, fringe: f32) -> Check
    ensures { result ≡ coverage_check_of b fringe }
{
    b.check()?;
    shape::fringe_check(fringe)
}

// The box for a draw whose positions are in the space the frame maps to, or none where the frame
// collapses that space or all but does, or the box is thinner than a pixel there.
// Ruled out: one radius squared off and the other kept; a coverage at a half extent of 0.4375
// fringe widths.
pub fn coverage(b: RoundedBox, fringe: f32) -> Result<Option<ClipCoverage>, Fault>
    ensures { result ≡ coverage_call b fringe }
{
    coverage_check(b, fringe)?;
    Ok(coverage_unchecked(b, fringe))
}

// ---- touch

#[tactic(auto, unfolding(crate::specs::Touches::touches_of))]
pub fn touches_unchecked(b: RoundedBox, fringe: f32, p: Position) -> bool
    ensures { result ≡ touches_of b fringe p }
{
    let Some(k) = coverage_unchecked(b, fringe) else {
        return false;
    };
    k.holds_point(p)
}

// Whether the box has a coverage and the point lies in it, on its edge or at most half a fringe width past
// it: the test that `contains` makes at each point.
// Ruled out: false at a point half a fringe width past the edge; true where there is no coverage.
pub fn touches(b: RoundedBox, fringe: f32, p: Position) -> Result<bool, Fault>
    ensures { result ≡ touches_call b fringe p }
{
    coverage_check(b, fringe)?;
    shape::point_check(p)?;
    Ok(touches_unchecked(b, fringe, p))
}
