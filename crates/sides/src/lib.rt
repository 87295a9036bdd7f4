// The sides that two boxes share, and `rect_intersection` of femtovg's clip/shape.rs: what two square boxes both
// cover. `one` is the Rust's self, in whose frame `two` is placed.
//
// A call refuses as document 01 says and else answers what the Rust does. What it rests on ends in
// `_unchecked` and takes any floats. Each contract gives the answer outright, by a definition of specs/.
#![tactic(auto)]

ghost use Rattle.std.specs.Prelude.{◌≡◌};
ghost use Rattle.sides.specs.Shared.{square_of, both_square_of, sides_of, own_sides_of, placed_sides_of, apart_of, between_of, raised_of, rect_intersection_of};
ghost use Rattle.sides.specs.Calls.{rect_intersection_call};

use beside::Placed;
use fault::Fault;
use geometry::Transform2D;
use shape::RoundedBox;

// The sides of an overlap in a box's frame: `low` and `high`.
#[derive(Clone, Copy, PartialEq)]
pub struct Sides {
    pub lowx: f32,
    pub lowy: f32,
    pub highx: f32,
    pub highy: f32,
}

impl Sides {
    // The nearer of each pair of sides, of a box and of one placed in its frame.
    #[tactic(auto, unfolding(crate::specs::Shared::sides_of))]
    pub fn shared(b: RoundedBox, p: Placed) -> Sides
        ensures { result ≡ sides_of b p }
    {
        Sides {
            lowx: float::max(p.x - p.hx, -b.ex),
            lowy: float::max(p.y - p.hy, -b.ey),
            highx: float::min(p.x + p.hx, b.ex),
            highy: float::min(p.y + p.hy, b.ey),
        }
    }

    // A box's own sides.
    #[tactic(auto, unfolding(crate::specs::Shared::own_sides_of))]
    pub fn own(b: RoundedBox) -> Sides
        ensures { result ≡ own_sides_of b }
    {
        Sides {
            lowx: -b.ex,
            lowy: -b.ey,
            highx: b.ex,
            highy: b.ey,
        }
    }

    // Those of a box that is placed in another's frame.
    #[tactic(auto, unfolding(crate::specs::Shared::placed_sides_of))]
    pub fn placed(p: Placed) -> Sides
        ensures { result ≡ placed_sides_of p }
    {
        Sides {
            lowx: p.x - p.hx,
            lowy: p.y - p.hy,
            highx: p.x + p.hx,
            highy: p.y + p.hy,
        }
    }

    // Whether nothing lies between.
    #[tactic(auto, unfolding(crate::specs::Shared::apart_of))]
    pub fn apart(self) -> bool
        ensures { result ≡ apart_of self }
    {
        self.lowx >= self.highx || self.lowy >= self.highy
    }

    // The sides with each high one no lower than its low one.
    #[tactic(auto, unfolding(crate::specs::Shared::raised_of))]
    fn raised(self) -> Self
        ensures { result ≡ raised_of self }
    {
        Self {
            highx: float::max(self.highx, self.lowx),
            highy: float::max(self.highy, self.lowy),
            ..self
        }
    }
}

// The square box between sides that are given in b's frame.
#[tactic(auto, unfolding(crate::specs::Shared::between_of))]
pub fn between(b: RoundedBox, s: Sides) -> RoundedBox
    ensures { result ≡ between_of b s }
{
    let centre = Transform2D::translation((s.lowx + s.highx) * 0.5, (s.lowy + s.highy) * 0.5);
    let mine = b.frame;
    let frame = centre.mul(mine);
    RoundedBox {
        frame,
        ex: (s.highx - s.lowx) * 0.5,
        ey: (s.highy - s.lowy) * 0.5,
        rx: 0.0,
        ry: 0.0,
    }
}

// ---- square corners

#[tactic(auto, unfolding(crate::specs::Shared::square_of))]
pub fn square(b: RoundedBox) -> bool
    ensures { result ≡ square_of b }
{
    b.rx == 0.0 && b.ry == 0.0
}

#[tactic(auto, unfolding(crate::specs::Shared::both_square_of))]
pub fn both_square(one: RoundedBox, two: RoundedBox) -> bool
    ensures { result ≡ both_square_of one two }
{
    square(one) && square(two)
}

// ---- rect_intersection

#[tactic(auto, unfolding(crate::specs::Shared::rect_intersection_of))]
fn rect_intersection_unchecked(one: RoundedBox, two: RoundedBox) -> Option<RoundedBox>
    ensures { result ≡ rect_intersection_of one two }
{
    if !both_square(one, two) {
        return None;
    }
    let p = beside::alongside(one, two)?;
    Some(between(one, Sides::shared(one, p).raised()))
}

// What two boxes with square corners and parallel sides both cover, exactly: a box with no extent
// where they lie apart, and none where a corner is round or the sides are not parallel.
// Ruled out: no box for boxes that lie apart; the overlap at the place of the first box's own centre.
pub fn rect_intersection(one: RoundedBox, two: RoundedBox) -> Result<Option<RoundedBox>, Fault>
    ensures { result ≡ rect_intersection_call one two }
{
    beside::pair_check(one, two)?;
    Ok(rect_intersection_unchecked(one, two))
}
