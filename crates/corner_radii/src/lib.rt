// The box around an outline, and which of its corners are round and by how much: `rounded` of femtovg's
// clip/shape.rs up to its radii. Each contract gives the result outright, by a definition of specs/.
#![tactic(auto)]

ghost use Rattle.std.specs.Prelude.{◌≡◌};
ghost use Rattle.corner_radii.specs.Around.{point_bounds_of, around_of, sized_half_of, sized_of};
ghost use Rattle.corner_radii.specs.Radii.{on_side_of, further_of, reach_step_of, reach_of, level_reach_of, left_of, snapped_of, radius_of, corner_of};
ghost use Rattle.corner_radii.specs.Mix.{same_of, square_of, round_of, alike_of, cut_of, cut_at_of, mix_of, corner_mix_of};

use geometry::{Bounds, Position};

// ---- the box around an outline

// Its centre and half extents, and how far off it a point may be.
#[derive(Clone, Copy)]
pub struct Around {
    pub cx: f32,
    pub cy: f32,
    pub ex: f32,
    pub ey: f32,
    pub slack: f32,
}

pub fn bounds(points: &[Position]) -> Bounds
    ensures { result ≡ point_bounds_of points.now }
{
    points.iter().fold(Bounds::none(), |b, p| b.with_point(*p))
}

#[tactic(auto, unfolding(crate::specs::Around::sized_half_of))]
fn sized_half(half: f32) -> bool
    ensures { result ≡ sized_half_of half }
{
    half > 0.0 && float::is_finite(half)
}

impl Around {
    // How far off the box an outline's points and radii may be, as a share of its smaller half extent.
    pub const FIT_TOLERANCE: f32 = 0.005;

    #[tactic(auto, unfolding(crate::specs::Around::around_of))]
    pub fn of(b: Bounds) -> Self
        ensures { result ≡ around_of b }
    {
        let ex = (b.maxx - b.minx) * 0.5;
        let ey = (b.maxy - b.miny) * 0.5;
        Self {
            cx: (b.minx + b.maxx) * 0.5,
            cy: (b.miny + b.maxy) * 0.5,
            ex,
            ey,
            slack: Self::FIT_TOLERANCE * float::min(ex, ey),
        }
    }

    #[tactic(auto, unfolding(crate::specs::Around::sized_of))]
    pub fn sized(self) -> bool
        ensures { result ≡ sized_of self }
    {
        sized_half(self.ex) && sized_half(self.ey)
    }
}

// ---- a corner's radii

// An axis at a corner, which lies on the half of `sign`.
#[derive(Clone, Copy)]
pub struct CornerAxis {
    pub centre: f32,
    pub half: f32,
    pub sign: f32,
}

#[derive(Clone, Copy)]
pub struct Radii {
    pub x: f32,
    pub y: f32,
}

// Whether an anchor, `side` off the centre across and `at` along, is on the corner's half of the side.
#[tactic(auto, unfolding(crate::specs::Radii::on_side_of))]
fn on_side(across: CornerAxis, along: CornerAxis, slack: f32, side: f32, at: f32) -> bool
    ensures { result ≡ on_side_of across along slack side at }
{
    if float::abs(float::abs(side) - across.half) > slack {
        return false;
    }
    side * across.sign > 0.0 && at * along.sign >= 0.0
}

// With one anchor more on the side, `at` along it.
#[tactic(auto, unfolding(crate::specs::Radii::further_of))]
fn further(far: Option<f32>, at: f32) -> Option<f32>
    ensures { result ≡ further_of far at }
{
    Some(far.map_or(at, |f| float::max(f, at)))
}

// How far a straight side reaches from the middle of it, with one anchor more, its numbers across and along.
#[tactic(auto, unfolding(crate::specs::Radii::reach_step_of))]
fn reach_step(
    across: CornerAxis,
    along: CornerAxis,
    slack: f32,
    far: Option<f32>,
    x: f32,
    y: f32,
) -> Option<f32>
    ensures { result ≡ reach_step_of across along slack far x y }
{
    let side = x - across.centre;
    let at = y - along.centre;
    if on_side(across, along, slack, side, at) {
        return further(far, float::abs(at));
    }
    far
}

// How far the side at a corner reaches, by anchors with x across and y along; and with y across and x along.
fn reach(anchors: &[Position], across: CornerAxis, along: CornerAxis, slack: f32) -> Option<f32>
    ensures { result ≡ reach_of across along slack anchors.now }
{
    anchors.iter().fold(
        None,
        |far, p| reach_step(across, along, slack, far, p.x, p.y),
    )
}

fn level_reach(
    anchors: &[Position],
    across: CornerAxis,
    along: CornerAxis,
    slack: f32,
) -> Option<f32>
    ensures { result ≡ level_reach_of across along slack anchors.now }
{
    anchors.iter().fold(
        None,
        |far, p| reach_step(across, along, slack, far, p.y, p.x),
    )
}

// What the side leaves of a half extent.
fn left(far: Option<f32>, extent: f32) -> f32
    ensures { result ≡ left_of far extent }
{
    far.map_or(extent, |f| extent - f)
}

// A radius that is nearly the half extent is that, and one that is nearly 0 is 0.
#[tactic(auto, unfolding(crate::specs::Radii::snapped_of))]
fn snapped(radius: f32, extent: f32, slack: f32) -> f32
    ensures { result ≡ snapped_of radius extent slack }
{
    if extent - radius <= slack {
        return extent;
    }
    if radius <= slack {
        return 0.0;
    }
    radius
}

#[tactic(auto, unfolding(crate::specs::Radii::radius_of))]
fn radius(far: Option<f32>, extent: f32, slack: f32) -> f32
    ensures { result ≡ radius_of far extent slack }
{
    snapped(float::max(left(far, extent), 0.0), extent, slack)
}

// The radii of the corner with these signs.
#[tactic(auto, unfolding(crate::specs::Radii::corner_of))]
fn corner(anchors: &[Position], a: Around, sx: f32, sy: f32) -> Radii
    ensures { result ≡ corner_of a anchors.now sx sy }
{
    let x = CornerAxis {
        centre: a.cx,
        half: a.ex,
        sign: sx,
    };
    let y = CornerAxis {
        centre: a.cy,
        half: a.ey,
        sign: sy,
    };
    let level = level_reach(anchors, y, x, a.slack);
    let upright = reach(anchors, x, y, a.slack);
    Radii {
        x: radius(level, a.ex, a.slack),
        y: radius(upright, a.ey, a.slack),
    }
}

// ---- which corners

// The same corners all round; or the two of a side square and the other two the same.
#[derive(Clone, Copy)]
pub enum CornerMix {
    Alike(Radii),
    CutAt(usize, Radii),
}

#[tactic(auto, unfolding(crate::specs::Mix::same_of))]
fn same(a: Radii, b: Radii, slack: f32) -> bool
    ensures { result ≡ same_of a b slack }
{
    float::abs(a.x - b.x) <= slack && float::abs(a.y - b.y) <= slack
}

#[tactic(auto, unfolding(crate::specs::Mix::square_of))]
fn square(r: Radii) -> bool
    ensures { result ≡ square_of r }
{
    r.x == 0.0 && r.y == 0.0
}

#[tactic(auto, unfolding(crate::specs::Mix::round_of))]
fn round(r: Radii) -> bool
    ensures { result ≡ round_of r }
{
    r.x > 0.0 && r.y > 0.0
}

#[tactic(auto, unfolding(crate::specs::Mix::alike_of))]
fn alike(r0: Radii, r1: Radii, r2: Radii, r3: Radii, slack: f32) -> bool
    ensures { result ≡ alike_of r0 r1 r2 r3 slack }
{
    same(r0, r0, slack) && same(r1, r0, slack) && same(r2, r0, slack) && same(r3, r0, slack)
}

// Whether the side between the corners a and b is cut.
#[tactic(auto, unfolding(crate::specs::Mix::cut_of))]
fn cut(a: Radii, b: Radii, c: Radii, d: Radii, slack: f32) -> bool
    ensures { result ≡ cut_of a b c d slack }
{
    square(a) && square(b) && round(c) && same(c, d, slack)
}

// The first side that is cut, if one is.
#[tactic(auto, unfolding(crate::specs::Mix::cut_at_of))]
fn cut_at(r0: Radii, r1: Radii, r2: Radii, r3: Radii, slack: f32) -> Option<CornerMix>
    ensures { result ≡ cut_at_of r0 r1 r2 r3 slack }
{
    if cut(r0, r1, r2, r3, slack) {
        return Some(CornerMix::CutAt(0, r2));
    }
    if cut(r1, r2, r3, r0, slack) {
        return Some(CornerMix::CutAt(1, r3));
    }
    if cut(r2, r3, r0, r1, slack) {
        return Some(CornerMix::CutAt(2, r0));
    }
    if cut(r3, r0, r1, r2, slack) {
        return Some(CornerMix::CutAt(3, r1));
    }
    None
}

#[tactic(auto, unfolding(crate::specs::Mix::mix_of))]
fn mix(r0: Radii, r1: Radii, r2: Radii, r3: Radii, slack: f32) -> Option<CornerMix>
    ensures { result ≡ mix_of r0 r1 r2 r3 slack }
{
    if !alike(r0, r1, r2, r3, slack) {
        return cut_at(r0, r1, r2, r3, slack);
    }
    if square(r0) || round(r0) {
        return Some(CornerMix::Alike(r0));
    }
    None
}

// The corners of the box around an outline, by its anchors; none where they are any other mix.
// Ruled out: the two axes exchanged; a cut where one corner is round, or three.
#[tactic(auto, unfolding(crate::specs::Mix::corner_mix_of))]
pub fn corner_mix(anchors: &[Position], a: Around) -> Option<CornerMix>
    ensures { result ≡ corner_mix_of a anchors.now }
{
    let r0 = corner(anchors, a, 1.0, 1.0);
    let r1 = corner(anchors, a, -1.0, 1.0);
    let r2 = corner(anchors, a, -1.0, -1.0);
    let r3 = corner(anchors, a, 1.0, -1.0);
    mix(r0, r1, r2, r3, a.slack)
}
