// A coverage and rectangles of device pixels: `reach` and `holds` of `ClipCoverage` in femtovg's
// clip/shape.rs.
//
// Neither call refuses anything: a coverage and bounds may hold any floats. Each contract gives the
// answer outright, by a definition of specs/.
#![tactic(auto)]

ghost use Rattle.std.specs.Prelude.{◌≡◌};
ghost use Rattle.device_bounds.specs.Reach.{linear_determinant_of, half_of, centre_of, around_of, bounds_of, reach_of};
ghost use Rattle.device_bounds.specs.Holds.{outside_of, square_corners_of, middle_of, half_sides_of, axis_holds_of, sides_hold_of, point_holds_of, corners_hold_of, holds_of};

use clip_coverage::ClipCoverage;
use geometry::{Bounds, Position};

// ---- reach

// The determinant of the linear part.
#[tactic(auto, unfolding(crate::specs::Reach::linear_determinant_of))]
fn linear_determinant(k: ClipCoverage) -> f32
    ensures { result ≡ linear_determinant_of k }
{
    k.la * k.ld - k.lb * k.lc
}

// The box's half sides, each `margin` fringe widths further out, taken back to device pixels.
#[tactic(auto, unfolding(crate::specs::Reach::half_of))]
fn half(k: ClipCoverage, determinant: f32, margin: f32) -> Position
    ensures { result ≡ half_of k determinant margin }
{
    let outerx = k.ex + margin;
    let outery = k.ey + margin;
    let size = float::abs(determinant);
    Position {
        x: (float::abs(k.ld) * outerx + float::abs(k.lb) * outery) / size,
        y: (float::abs(k.lc) * outerx + float::abs(k.la) * outery) / size,
    }
}

// The box's centre in device pixels.
#[tactic(auto, unfolding(crate::specs::Reach::centre_of))]
fn centre(k: ClipCoverage, determinant: f32) -> Position
    ensures { result ≡ centre_of k determinant }
{
    Position {
        x: (k.lb * k.oy - k.ld * k.ox) / determinant,
        y: (k.lc * k.ox - k.la * k.oy) / determinant,
    }
}

#[tactic(auto, unfolding(crate::specs::Reach::around_of))]
fn around(centre: Position, half: Position) -> Bounds
    ensures { result ≡ around_of centre half }
{
    Bounds {
        minx: centre.x - half.x,
        miny: centre.y - half.y,
        maxx: centre.x + half.x,
        maxy: centre.y + half.y,
    }
}

// The device bounds of the box with each side `margin` fringe widths further out.
#[tactic(auto, unfolding(crate::specs::Reach::bounds_of))]
fn bounds(k: ClipCoverage, margin: f32) -> Option<Bounds>
    ensures { result ≡ bounds_of k margin }
{
    let determinant = linear_determinant(k);
    if determinant == 0.0 {
        return None;
    }
    let half = half(k, determinant, margin);
    let centre = centre(k, determinant);
    Some(around(centre, half))
}

// The device rectangle outside which the coverage is zero, the box out to where its sides' ramps end,
// or none for a coverage of one everywhere.
// Ruled out: the box's own bounds, without its ramps; bounds where the determinant is -0.
pub fn reach(k: ClipCoverage) -> Option<Bounds>
    ensures { result ≡ reach_of k }
{
    bounds(k, ClipCoverage::RAMP)
}

// ---- holds

// How far a device position is outside the clip as it was given, in fringe widths: its distance from the
// box, less off a round corner what the outline strays there and the `straddle` that it may stand off it.
fn outside(k: ClipCoverage, p: Position, straddle: f32) -> f32
    ensures { result ≡ outside_of k p straddle }
{
    let distance = k.distance_unchecked(p);
    if k.off_round_corner(p) {
        return distance - k.strays - straddle;
    }
    distance
}

#[tactic(auto, unfolding(crate::specs::Holds::square_corners_of))]
fn square_corners(k: ClipCoverage) -> bool
    ensures { result ≡ square_corners_of k }
{
    k.rx == 0.0 && k.ry == 0.0
}

#[tactic(auto, unfolding(crate::specs::Holds::middle_of))]
fn middle(b: Bounds) -> Position
    ensures { result ≡ middle_of b }
{
    Position {
        x: (b.minx + b.maxx) * 0.5,
        y: (b.miny + b.maxy) * 0.5,
    }
}

#[tactic(auto, unfolding(crate::specs::Holds::half_sides_of))]
fn half_sides(b: Bounds) -> Position
    ensures { result ≡ half_sides_of b }
{
    Position {
        x: (b.maxx - b.minx) * 0.5,
        y: (b.maxy - b.miny) * 0.5,
    }
}

// Whether a rectangle lies between two parallel sides, given by their row, offset and half extent.
#[tactic(auto, unfolding(crate::specs::Holds::axis_holds_of))]
fn axis_holds(a: f32, b: f32, offset: f32, extent: f32, centre: Position, half: Position) -> bool
    ensures { result ≡ axis_holds_of a b offset extent centre half }
{
    let at = a * centre.x + b * centre.y + offset;
    let far = float::abs(at) + float::abs(a) * half.x + float::abs(b) * half.y;
    far - extent <= ClipCoverage::DRAW_SLACK
}

#[tactic(auto, unfolding(crate::specs::Holds::sides_hold_of))]
fn sides_hold(k: ClipCoverage, b: Bounds) -> bool
    ensures { result ≡ sides_hold_of k b }
{
    let centre = middle(b);
    let half = half_sides(b);
    axis_holds(k.la, k.lb, k.ox, k.ex, centre, half)
        && axis_holds(k.lc, k.ld, k.oy, k.ey, centre, half)
}

#[tactic(auto, unfolding(crate::specs::Holds::point_holds_of))]
fn point_holds(k: ClipCoverage, x: f32, y: f32) -> bool
    ensures { result ≡ point_holds_of k x y }
{
    outside(k, Position { x, y }, 0.0) <= ClipCoverage::DRAW_SLACK
}

#[tactic(auto, unfolding(crate::specs::Holds::corners_hold_of))]
fn corners_hold(k: ClipCoverage, b: Bounds) -> bool
    ensures { result ≡ corners_hold_of k b }
{
    point_holds(k, b.minx, b.miny)
        && point_holds(k, b.maxx, b.miny)
        && point_holds(k, b.maxx, b.maxy)
        && point_holds(k, b.minx, b.maxy)
}

// Whether the clip as it was given holds a rectangle of device pixels whole, within DRAW_SLACK.
// Ruled out: a rectangle's half sides taken by their size; the strays left out at a round corner.
#[tactic(auto, unfolding(crate::specs::Holds::holds_of))]
pub fn holds(k: ClipCoverage, bounds: Bounds) -> bool
    ensures { result ≡ holds_of k bounds }
{
    if square_corners(k) {
        return sides_hold(k, bounds);
    }
    corners_hold(k, bounds)
}
