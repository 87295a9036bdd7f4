// Two boxes beside each other: `alongside` and `parallel` of femtovg's clip/shape.rs. `one` is the Rust's self,
// in whose frame `two` is placed.
//
// A call refuses as document 01 says and else answers what the Rust does. What it rests on ends in
// `_unchecked` and takes any floats. Each contract gives the answer outright, by a definition of specs/.
#![tactic(auto)]

ghost use Rattle.std.specs.Prelude.{◌≡◌};
ghost use Rattle.beside.specs.Alongside.{scale_of, aligned_of, straight_of, crossed_of, straight_by, crossed_by, alongside_of, parallel_of};
ghost use Rattle.beside.specs.Calls.{pair_check_of, pair_fringe_check_of, parallel_call};

use fault::{Check, Fault};
use geometry::Transform2D;
use shape::RoundedBox;

// A box in another's frame: its centre, and its half sides and radii along the axes.
#[derive(Clone, Copy)]
pub struct Placed {
    pub x: f32,
    pub y: f32,
    pub hx: f32,
    pub hy: f32,
    pub rx: f32,
    pub ry: f32,
}

// ---- alongside

// The largest size of the linear part's numbers.
pub fn scale(t: Transform2D) -> f32
    ensures { result ≡ scale_of t }
{
    float::max(
        float::max(
            float::max(float::abs(t.a), float::abs(t.b)),
            float::abs(t.c),
        ),
        float::abs(t.d),
    )
}

#[tactic(auto, unfolding(crate::specs::Alongside::aligned_of))]
fn aligned(along: f32, across: f32, scale: f32) -> bool
    ensures { result ≡ aligned_of along across scale }
{
    float::abs(across) <= Placed::ALIGNED_SHARE * scale && float::abs(along) > 0.0
}

// Whether each axis runs along its own, and whether each runs along the other.
#[tactic(auto, unfolding(crate::specs::Alongside::straight_of))]
fn straight(t: Transform2D) -> bool
    ensures { result ≡ straight_of t }
{
    let scale = scale(t);
    aligned(t.a, t.b, scale) && aligned(t.d, t.c, scale)
}

#[tactic(auto, unfolding(crate::specs::Alongside::crossed_of))]
fn crossed(t: Transform2D) -> bool
    ensures { result ≡ crossed_of t }
{
    let scale = scale(t);
    aligned(t.b, t.a, scale) && aligned(t.c, t.d, scale)
}

// `two` in the frame of `one` when the two have parallel sides: its centre, and its half sides and
// radii along that frame's axes.
#[tactic(auto, unfolding(crate::specs::Alongside::alongside_of))]
pub fn alongside(one: RoundedBox, two: RoundedBox) -> Option<Placed>
    ensures { result ≡ alongside_of one two }
{
    let mine = one.frame;
    let theirs = two.frame;
    let t = theirs.div(mine);
    if straight(t) {
        return Some(Placed::straight(t, two));
    }
    if crossed(t) {
        return Some(Placed::crossed(t, two));
    }
    None
}

impl Placed {
    // The share of a frame's scale that an axis may run across and still be along the other's.
    pub const ALIGNED_SHARE: f32 = 1e-4;

    // A box by the frame t, as it stands, and with its sides changed over.
    #[tactic(auto, unfolding(crate::specs::Alongside::straight_by))]
    fn straight(t: Transform2D, b: RoundedBox) -> Placed
        ensures { result ≡ straight_by t b }
    {
        let a = float::abs(t.a);
        let d = float::abs(t.d);
        Placed {
            x: t.x,
            y: t.y,
            hx: a * b.ex,
            hy: d * b.ey,
            rx: a * b.rx,
            ry: d * b.ry,
        }
    }

    #[tactic(auto, unfolding(crate::specs::Alongside::crossed_by))]
    fn crossed(t: Transform2D, other: RoundedBox) -> Placed
        ensures { result ≡ crossed_by t other }
    {
        let b = float::abs(t.b);
        let c = float::abs(t.c);
        Placed {
            x: t.x,
            y: t.y,
            hx: c * other.ey,
            hy: b * other.ex,
            rx: c * other.ry,
            ry: b * other.rx,
        }
    }
}

// ---- refusals

pub fn pair_check(one: RoundedBox, two: RoundedBox) -> Check
    ensures { result ≡ pair_check_of one two }
{
    one.check()?;
    two.check()
}

pub fn pair_fringe_check(one: RoundedBox, two: RoundedBox, fringe: f32) -> Check
    ensures { result ≡ pair_fringe_check_of one two fringe }
{
    pair_check(one, two)?;
    shape::fringe_check(fringe)
}

// ---- parallel

fn parallel_unchecked(one: RoundedBox, two: RoundedBox) -> bool
    ensures { result ≡ parallel_of one two }
{
    alongside(one, two).is_some()
}

// Whether the sides of two boxes are parallel.
// Ruled out: false for boxes a quarter turn apart; a fault of the second box told before one of
// the first.
pub fn parallel(one: RoundedBox, two: RoundedBox) -> Result<bool, Fault>
    ensures { result ≡ parallel_call one two }
{
    pair_check(one, two)?;
    Ok(parallel_unchecked(one, two))
}
