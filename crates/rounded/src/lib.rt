// The box that a curved outline draws, its strays, and the box that cuts it: `rounded` of femtovg's
// clip/shape.rs. Each contract gives the result outright, by a definition of specs/.
#![tactic(auto)]

ghost use Rattle.std.specs.Prelude.{◌≡◌, ◌<◌, ◌≤◌, length};
ghost use Rattle.outline.specs.Outline.{most_verbs};
ghost use Rattle.rounded.specs.OnBox.{quadrant_of, beside_of, no_radii, radii_at_of, at_corner_of, corner_met_of, side_met_of, met_of, met_step_of, met_all_of};
ghost use Rattle.rounded.specs.Turning.{angle_of, step_of, turned_by, no_turn, turned_of, once_of};
ghost use Rattle.rounded.specs.Rounded.{box_of, side_x_of, side_y_of, past_of, boxed_of, fitted_of, rounded_by, rounded_of};

use corner_radii::{Around, CornerMix, Radii};
use geometry::{Position, Transform2D};
use outline::Segment;
use shape::RoundedBox;

// A box, how far the outline strays outside it, and where one side is square the box that cuts it.
#[derive(Clone, Copy)]
pub struct Fitted {
    pub shape: RoundedBox,
    pub strays: f32,
    pub cut: Option<RoundedBox>,
}

impl Fitted {
    // The curve between two samples may reach a little further outside than they do.
    const STRAYS_MARGIN: f32 = 1.1;
}

// ---- on the box

// The corner whose quarter of the box a point lies in.
#[tactic(auto, unfolding(crate::specs::OnBox::quadrant_of))]
fn quadrant(a: Around, p: Position) -> usize
    ensures { result ≡ quadrant_of a p }
{
    match (p.x >= a.cx, p.y >= a.cy) {
        (true, true) => 0,
        (false, true) => 1,
        (false, false) => 2,
        (true, false) => 3,
    }
}

// Whether a corner is one of a side's two.
#[tactic(auto, unfolding(crate::specs::OnBox::beside_of))]
fn beside(quadrant: usize, side: usize) -> bool
    ensures { result ≡ beside_of quadrant side }
{
    quadrant == side || quadrant == (side % 4 + 1) % 4
}

fn no_radii() -> Radii
    ensures { result ≡ no_radii }
{
    Radii { x: 0.0, y: 0.0 }
}

// The radii of the corner that a point lies at.
#[tactic(auto, unfolding(crate::specs::OnBox::radii_at_of))]
fn radii_at(mix: CornerMix, a: Around, p: Position) -> Radii
    ensures { result ≡ radii_at_of mix a p }
{
    match mix {
        CornerMix::Alike(r) => r,
        CornerMix::CutAt(side, r) => {
            if beside(quadrant(a, p), side) {
                return no_radii();
            }
            r
        }
    }
}

// How far points lie outside the box, and whether all are on it.
#[derive(Clone, Copy)]
pub struct Met {
    pub strays: f32,
    pub near: bool,
}

// Whether a point is past the straight sides of a round corner.
#[tactic(auto, unfolding(crate::specs::OnBox::at_corner_of))]
fn at_corner(r: Radii, corner: Position) -> bool
    ensures { result ≡ at_corner_of r corner }
{
    r.x > 0.0 && corner.x > 0.0 && corner.y > 0.0
}

#[tactic(auto, unfolding(crate::specs::OnBox::corner_met_of))]
fn corner_met(r: Radii, corner: Position) -> Met
    ensures { result ≡ corner_met_of r corner }
{
    let kx = corner.x / r.x;
    let ky = corner.y / r.y;
    let k1 = roots::hypot(kx, ky);
    let slope = roots::hypot(kx / r.x, ky / r.y);
    let off = float::abs(k1 - 1.0);
    Met {
        strays: (k1 - 1.0) * k1 / slope,
        near: off <= Around::FIT_TOLERANCE,
    }
}

#[tactic(auto, unfolding(crate::specs::OnBox::side_met_of))]
fn side_met(sx: f32, sy: f32, slack: f32) -> Met
    ensures { result ≡ side_met_of sx sy slack }
{
    let side = float::max(sx, sy);
    let off = float::abs(side);
    Met {
        strays: side,
        near: off <= slack,
    }
}

#[tactic(auto, unfolding(crate::specs::OnBox::met_of))]
fn meets(mix: CornerMix, a: Around, p: Position) -> Met
    ensures { result ≡ met_of mix a p }
{
    let sx = float::abs(p.x - a.cx) - a.ex;
    let sy = float::abs(p.y - a.cy) - a.ey;
    let r = radii_at(mix, a, p);
    let corner = Position {
        x: sx + r.x,
        y: sy + r.y,
    };
    if at_corner(r, corner) {
        return corner_met(r, corner);
    }
    side_met(sx, sy, a.slack)
}

// With one point more.
#[tactic(auto, unfolding(crate::specs::OnBox::met_step_of))]
fn met_step(mix: CornerMix, a: Around, met: Met, p: Position) -> Met
    ensures { result ≡ met_step_of mix a met p }
{
    let next = meets(mix, a, p);
    Met {
        strays: float::max(met.strays, next.strays),
        near: met.near && next.near,
    }
}

fn met_all(outline: &[Position], mix: CornerMix, a: Around) -> Met
    ensures { result ≡ met_all_of mix a outline.now }
{
    let none = Met {
        strays: 0.0,
        near: true,
    };
    outline
        .iter()
        .fold(none, |met, p| met_step(mix, a, met, *p))
}

// ---- once around

const PI: f32 = 3.14159274;

const TAU: f32 = 6.2831855;

// How far an outline has turned, and whether any step of it went forward, and any backward.
#[derive(Clone, Copy)]
pub struct Turn {
    pub turned: f32,
    pub forward: bool,
    pub backward: bool,
}

impl Turn {
    // A step below this size is no turn.
    const TOLERANCE: f32 = 1e-4;

    // How far from once around an outline may turn.
    const ONCE_TOLERANCE: f32 = 0.01;

    fn none() -> Self
        ensures { result ≡ no_turn }
    {
        Self {
            turned: 0.0,
            forward: false,
            backward: false,
        }
    }

    // With one step more.
    #[tactic(auto, unfolding(crate::specs::Turning::turned_by))]
    fn turned_by(self, s: f32) -> Self
        ensures { result ≡ turned_by self s }
    {
        let forward = s > Self::TOLERANCE;
        let backward = s < -Self::TOLERANCE;
        Self {
            turned: self.turned + s,
            forward: self.forward || forward,
            backward: self.backward || backward,
        }
    }

    #[tactic(auto, unfolding(crate::specs::Turning::once_of))]
    fn once(self) -> bool
        ensures { result ≡ once_of self }
    {
        let one_way = !self.forward || !self.backward;
        float::abs(float::abs(self.turned) - TAU) < Self::ONCE_TOLERANCE && one_way
    }
}

#[tactic(auto, unfolding(crate::specs::Turning::angle_of))]
fn angle(a: Around, p: Position) -> f32
    ensures { result ≡ angle_of a p }
{
    float::atan2((p.y - a.cy) / a.ey, (p.x - a.cx) / a.ex)
}

// From one angle to the next, the shorter way.
#[tactic(auto, unfolding(crate::specs::Turning::step_of))]
fn step(from: f32, to: f32) -> f32
    ensures { result ≡ step_of from to }
{
    let s = to - from;
    if s > PI {
        return s - TAU;
    }
    if s < -PI {
        return s + TAU;
    }
    s
}

// The turns from each point to the next.
fn turned(outline: &[Position], a: Around) -> Turn
    requires { 0 < length outline.now }
    ensures { result ≡ turned_of a outline.now }
{
    let mut t = Turn::none();
    let mut last = angle(a, outline[0]);
    for p in &outline[1..] {
        let next = angle(a, *p);
        t = t.turned_by(step(last, next));
        last = next;
    }
    t
}

// ---- the answer

fn box_of(a: Around, r: Radii) -> RoundedBox
    ensures { result ≡ box_of a r }
{
    let frame = Transform2D::translation(a.cx, a.cy);
    RoundedBox {
        frame,
        ex: a.ex,
        ey: a.ey,
        rx: r.x,
        ry: r.y,
    }
}

// The direction that a side faces.
#[tactic(auto, unfolding(crate::specs::Rounded::side_x_of))]
fn side_x(side: usize) -> f32
    ensures { result ≡ side_x_of side }
{
    match side {
        1 => -1.0,
        3 => 1.0,
        _ => 0.0,
    }
}

#[tactic(auto, unfolding(crate::specs::Rounded::side_y_of))]
fn side_y(side: usize) -> f32
    ensures { result ≡ side_y_of side }
{
    match side {
        0 => 1.0,
        2 => -1.0,
        _ => 0.0,
    }
}

// The box that runs on past the square side by twice its radius there, so that its far corners lie
// well outside the cut.
#[tactic(auto, unfolding(crate::specs::Rounded::past_of))]
fn past(side: usize, r: Radii, a: Around) -> RoundedBox
    ensures { result ≡ past_of side r a }
{
    let sx = side_x(side);
    let sy = side_y(side);
    let run_x = 2.0 * r.x * float::abs(sx);
    let run_y = 2.0 * r.y * float::abs(sy);
    let frame = Transform2D::translation(a.cx + sx * run_x * 0.5, a.cy + sy * run_y * 0.5);
    RoundedBox {
        frame,
        ex: a.ex + run_x * 0.5,
        ey: a.ey + run_y * 0.5,
        rx: r.x,
        ry: r.y,
    }
}

#[tactic(auto, unfolding(crate::specs::Rounded::boxed_of))]
fn boxed(mix: CornerMix, a: Around, strays: f32) -> Fitted
    ensures { result ≡ boxed_of mix a strays }
{
    let strays = strays * Fitted::STRAYS_MARGIN;
    match mix {
        CornerMix::Alike(r) => Fitted {
            shape: box_of(a, r),
            strays,
            cut: None,
        },
        CornerMix::CutAt(side, r) => Fitted {
            shape: past(side, r, a),
            strays,
            cut: Some(box_of(a, no_radii())),
        },
    }
}

// The box of an outline with these corners, where all of its points are on it and they go around it once.
#[tactic(auto, unfolding(crate::specs::Rounded::fitted_of))]
fn fit_on(outline: &[Position], a: Around, mix: CornerMix) -> Option<Fitted>
    requires { 0 < length outline.now }
    ensures { result ≡ fitted_of a (Some mix) outline.now }
{
    let met = met_all(outline, mix, a);
    if met.near && turned(outline, a).once() {
        return Some(boxed(mix, a, met.strays));
    }
    None
}

// The box of an outline, with its anchors.
#[tactic(auto, unfolding(crate::specs::Rounded::rounded_by, crate::specs::Rounded::fitted_of))]
fn rounded_points(outline: &[Position], anchors: &[Position]) -> Option<Fitted>
    requires { 0 < length outline.now }
    ensures { result ≡ rounded_by outline.now anchors.now }
{
    let a = Around::of(corner_radii::bounds(outline));
    if !a.sized() {
        return None;
    }
    let mix = corner_radii::corner_mix(anchors, a)?;
    fit_on(outline, a, mix)
}

// The box of a start and segments, its strays, and the box that cuts it where one side is square.
// Ruled out: a box for an outline that goes around twice; the cut box grown with the rounded one.
#[tactic(auto, unfolding(crate::specs::Rounded::rounded_of))]
pub fn rounded(start: Position, segments: &[Segment]) -> Option<Fitted>
    requires { length segments.now ≤ most_verbs }
    ensures { result ≡ rounded_of start segments.now }
{
    let outline = samples::outline_points(start, segments);
    let anchors = samples::anchors(start, segments);
    rounded_points(&outline, &anchors)
}
