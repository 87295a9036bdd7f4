// Boxes with elliptical corners: `RoundedBox` of femtovg's clip/shape.rs, with what asks one box alone.
//
// A call of the same name as the Rust's refuses as document 01 says and else answers what the Rust
// does. What it rests on ends in `_unchecked` and takes any floats. Each contract gives the answer
// outright, by a definition of specs/.
#![tactic(auto)]

ghost use Rattle.std.specs.Prelude.{◌≡◌, ◌&&◌, ◌<◌, Bool};
ghost use Rattle.geometry.specs.declared.Position.{Position};
ghost use Rattle.shape.specs.Checks.{in_range_of, both_in_range_of, frame_in_range_of, box_in_range_of, improper_side_of, improper_of};
ghost use Rattle.shape.specs.Checks.{box_check_of, numbers_check_of, frame_check_of, fringe_check_of, point_check_of};
ghost use Rattle.shape.specs.Outline.{transformed_of, corner_at_of, bounds_of, outline_point_of, all_below, TellsPoint};
ghost use Rattle.shape.specs.Calls.{transformed_call, bounds_call};

use fault::{Check, Fault};
use geometry::{Bounds, Position, Transform2D};

// A box with elliptical corners: zero radii make a rectangle, radii equal to the extent an ellipse.
// The fields' order is that of `struct beamnettle_box` in include/beamnettle.h. No contract pins it:
// compare/run tests it with a C program (compare/header).
#[repr(C)]
#[derive(Clone, Copy)]
pub struct RoundedBox {
    // maps the box, centred on the origin with its sides along the axes, to where its outline lies
    pub frame: Transform2D,
    // half extents
    pub ex: f32,
    pub ey: f32,
    // radii
    pub rx: f32,
    pub ry: f32,
}

// ---- refusals

pub fn number_in_range(x: f32) -> bool
    ensures { result ≡ in_range_of x }
{
    float::abs(x) <= RoundedBox::LARGEST_NUMBER
}

fn both_in_range(x: f32, y: f32) -> bool
    ensures { result ≡ both_in_range_of x y }
{
    number_in_range(x) && number_in_range(y)
}

#[tactic(auto, unfolding(crate::specs::Checks::frame_in_range_of))]
fn frame_in_range(t: Transform2D) -> bool
    ensures { result ≡ frame_in_range_of t }
{
    both_in_range(t.a, t.b) && both_in_range(t.c, t.d) && both_in_range(t.x, t.y)
}

// The check of numbers of which `good` tells whether all are in range.
pub fn numbers_check(good: bool) -> Check
    ensures { result ≡ numbers_check_of good }
{
    if good {
        Ok(())
    } else {
        Err(Fault::NumberOutOfRange)
    }
}

pub fn frame_check(t: Transform2D) -> Check
    ensures { result ≡ frame_check_of t }
{
    numbers_check(frame_in_range(t))
}

pub fn fringe_check(fringe: f32) -> Check
    ensures { result ≡ fringe_check_of fringe }
{
    numbers_check(number_in_range(fringe))
}

pub fn point_check(p: Position) -> Check
    ensures { result ≡ point_check_of p }
{
    numbers_check(both_in_range(p.x, p.y))
}

impl RoundedBox {
    // The largest size of a number.
    const LARGEST_NUMBER: f32 = 1048576.0;

    #[tactic(auto, unfolding(crate::specs::Checks::box_in_range_of))]
    fn in_range(self) -> bool
        ensures { result ≡ box_in_range_of self }
    {
        frame_in_range(self.frame)
            && both_in_range(self.ex, self.ey)
            && both_in_range(self.rx, self.ry)
    }

    // Whether a half extent or its radius is below 0, or the radius over the extent.
    #[tactic(auto, unfolding(crate::specs::Checks::improper_side_of))]
    fn improper_side(extent: f32, radius: f32) -> bool
        ensures { result ≡ improper_side_of extent radius }
    {
        extent < 0.0 || radius < 0.0 || extent < radius
    }

    fn improper(self) -> bool
        ensures { result ≡ improper_of self }
    {
        Self::improper_side(self.ex, self.rx) || Self::improper_side(self.ey, self.ry)
    }

    // Document 01's causes for a box: number 1 before number 2.
    #[tactic(auto, unfolding(crate::specs::Checks::box_check_of))]
    pub fn check(self) -> Check
        ensures { result ≡ box_check_of self }
    {
        if !self.in_range() {
            return Err(Fault::NumberOutOfRange);
        }
        if self.improper() {
            return Err(Fault::ImproperBox);
        }
        Ok(())
    }

    // ---- transformed

    pub fn transformed_unchecked(self, transform: Transform2D) -> Self
        ensures { result ≡ transformed_of self transform }
    {
        let frame = self.frame;
        let carried = frame.mul(transform);
        Self {
            frame: carried,
            ..self
        }
    }

    // The box under `transform`: its frame carried along.
    // Ruled out: the product turned round; the half extents scaled with the frame.
    pub fn transformed(self, transform: Transform2D) -> Result<Self, Fault>
        ensures { result ≡ transformed_call self transform }
    {
        self.check()?;
        frame_check(transform)?;
        Ok(self.transformed_unchecked(transform))
    }

    // ---- bounds

    fn corner_at(self, x: f32, y: f32) -> Position
        ensures { result ≡ corner_at_of self x y }
    {
        let frame = self.frame;
        frame.transform_point(x * self.ex, y * self.ey)
    }

    fn bounds_unchecked(self) -> Bounds
        ensures { result ≡ bounds_of self }
    {
        Bounds::from_points(
            self.corner_at(-1.0, -1.0),
            self.corner_at(1.0, -1.0),
            self.corner_at(1.0, 1.0),
            self.corner_at(-1.0, 1.0),
        )
    }

    // The rectangle that the corners span.
    // Ruled out: bounds of two opposite corners alone; the corners in another order, which shows at
    // zeros of either sign.
    pub fn bounds(self) -> Result<Bounds, Fault>
        ensures { result ≡ bounds_call self }
    {
        self.check()?;
        Ok(self.bounds_unchecked())
    }

    // ---- the outline

    // CORNER_ARC: the cosine and sine of the angles a corner's arc is sampled at, a quarter turn in
    // eight steps.
    const CORNER_ARC_COS: [f32; 9] = [
        1.0,
        0.980_785_3,
        0.923_879_5,
        0.831_469_6,
        0.707_106_77,
        0.555_570_2,
        0.382_683_4,
        0.195_090_3,
        0.0,
    ];

    const CORNER_ARC_SIN: [f32; 9] = [
        0.0,
        0.195_090_3,
        0.382_683_4,
        0.555_570_2,
        0.707_106_77,
        0.831_469_6,
        0.923_879_5,
        0.980_785_3,
        1.0,
    ];

    const CORNER_SIGN_X: [f32; 4] = [-1.0, 1.0, 1.0, -1.0];

    const CORNER_SIGN_Y: [f32; 4] = [-1.0, -1.0, 1.0, 1.0];

    // Point i of the 36 along the outline: nine on each corner's arc.
    pub fn outline_point(self, i: usize) -> Position
        requires { i < 36 }
        ensures { result ≡ outline_point_of self i }
    {
        let step = i % 9;
        let corner = i / 9;
        let cos = Self::CORNER_ARC_COS[step];
        let sin = Self::CORNER_ARC_SIN[step];
        let sx = Self::CORNER_SIGN_X[corner];
        let sy = Self::CORNER_SIGN_Y[corner];
        let x = self.ex - self.rx * (1.0 - cos);
        let y = self.ey - self.ry * (1.0 - sin);
        let frame = self.frame;
        frame.transform_point(x * sx, y * sy)
    }

    // Whether every point of the outline passes a test.
    pub fn every_outline_point<F: Fn(Position) -> bool>(self, passes: F) -> bool
        requires { F.IsAlwaysCallable passes }
        ensures { (test : Position → Bool) → TellsPoint (F.post passes) test → result ≡ all_below (λ i. test (outline_point_of self i)) 36 }
    {
        for i in 0..36 {
            if !passes(self.outline_point(i)) {
                return false;
            }
        }
        true
    }
}
