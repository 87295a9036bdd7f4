// A clip and a scissor: `with_scissor` and `trimmed_scissor` of femtovg's clip/shape.rs. `clip` is the
// Rust's self.
//
// A call refuses as document 01 says and else answers what the Rust does. What it rests on ends in
// `_unchecked` and takes any floats. Each contract gives the answer outright, by a definition of specs/.
#![tactic(auto)]

ghost use Rattle.std.specs.Prelude.{◌≡◌};
ghost use Rattle.scissor.specs.Scissor.{with_scissor_of, x_axis_of, y_axis_of, within_low_of, within_high_of, low_of, high_of, cuts_of};
ghost use Rattle.scissor.specs.Scissor.{trimmed_sides_of, trim_of, trimmed_scissor_of};
ghost use Rattle.scissor.specs.Calls.{with_scissor_call, trimmed_scissor_call};

use beside::Placed;
use clip_coverage::ClipCoverage;
use fault::Fault;
use geometry::Position;
use shape::RoundedBox;
use sides::Sides;

// ---- with_scissor

#[tactic(auto, unfolding(crate::specs::Scissor::with_scissor_of))]
pub fn with_scissor_unchecked(
    clip: RoundedBox,
    scissor: RoundedBox,
    fringe: f32,
) -> Option<(RoundedBox, ClipCoverage)>
    ensures { result ≡ with_scissor_of clip scissor fringe }
{
    let slack = ClipCoverage::DRAW_SLACK;
    let both = overlap::intersection_within_unchecked(clip, scissor, fringe, slack)?;
    let coverage = covering::coverage_unchecked(both, fringe)?;
    Some((both, coverage))
}

// A clip and a scissor as the one box, within DRAW_SLACK, and its coverage that draws under both carry in
// place of the two.
// Ruled out: the slack of `intersection`, half a fringe width; a box that has no coverage.
pub fn with_scissor(
    clip: RoundedBox,
    scissor: RoundedBox,
    fringe: f32,
) -> Result<Option<(RoundedBox, ClipCoverage)>, Fault>
    ensures { result ≡ with_scissor_call clip scissor fringe }
{
    beside::pair_fringe_check(clip, scissor, fringe)?;
    Ok(with_scissor_unchecked(clip, scissor, fringe))
}

// ---- one axis of a box, and of another that is placed in its frame

#[derive(Clone, Copy)]
pub struct Axis {
    // the box's half extent
    pub extent: f32,
    // the other's centre and half side
    pub centre: f32,
    pub half: f32,
    // one fringe width
    pub per_fringe: f32,
}

impl Axis {
    // How many fringe widths past a clip a side is moved that the clip lies within.
    const PAST: f32 = 2.0;

    pub fn x(b: RoundedBox, p: Placed, per_fringe: Position) -> Axis
        ensures { result ≡ x_axis_of b p per_fringe }
    {
        Axis {
            extent: b.ex,
            centre: p.x,
            half: p.hx,
            per_fringe: per_fringe.x,
        }
    }

    pub fn y(b: RoundedBox, p: Placed, per_fringe: Position) -> Axis
        ensures { result ≡ y_axis_of b p per_fringe }
    {
        Axis {
            extent: b.ey,
            centre: p.y,
            half: p.hy,
            per_fringe: per_fringe.y,
        }
    }

    // Whether the other box lies within the low side, and within the high one, to DRAW_SLACK.
    #[tactic(auto, unfolding(crate::specs::Scissor::within_low_of))]
    fn within_low(self) -> bool
        ensures { result ≡ within_low_of self }
    {
        let slack = ClipCoverage::DRAW_SLACK * self.per_fringe;
        -self.extent <= self.centre - self.half + slack
    }

    #[tactic(auto, unfolding(crate::specs::Scissor::within_high_of))]
    fn within_high(self) -> bool
        ensures { result ≡ within_high_of self }
    {
        let slack = ClipCoverage::DRAW_SLACK * self.per_fringe;
        self.extent >= self.centre + self.half - slack
    }

    // Each side: moved out past the other box where that lies within it, and else as it was.
    #[tactic(auto, unfolding(crate::specs::Scissor::low_of))]
    fn low(self) -> f32
        ensures { result ≡ low_of self }
    {
        if self.within_low() {
            return self.centre - self.half - Self::PAST * self.per_fringe;
        }
        -self.extent
    }

    #[tactic(auto, unfolding(crate::specs::Scissor::high_of))]
    fn high(self) -> f32
        ensures { result ≡ high_of self }
    {
        if self.within_high() {
            return self.centre + self.half + Self::PAST * self.per_fringe;
        }
        self.extent
    }

    // Whether a side still clips.
    #[tactic(auto, unfolding(crate::specs::Scissor::cuts_of))]
    fn cuts(self) -> bool
        ensures { result ≡ cuts_of self }
    {
        !self.within_low() || !self.within_high()
    }
}

// ---- trimmed_scissor

#[tactic(auto, unfolding(crate::specs::Scissor::trimmed_sides_of))]
fn trimmed_sides(x: Axis, y: Axis) -> Sides
    ensures { result ≡ trimmed_sides_of x y }
{
    Sides {
        lowx: x.low(),
        lowy: y.low(),
        highx: x.high(),
        highy: y.high(),
    }
}

// The scissor with its sides trimmed, where one of them still clips.
#[tactic(auto, unfolding(crate::specs::Scissor::trim_of))]
fn trim(scissor: RoundedBox, x: Axis, y: Axis) -> Option<RoundedBox>
    ensures { result ≡ trim_of scissor x y }
{
    if x.cuts() || y.cuts() {
        return Some(sides::between(scissor, trimmed_sides(x, y)));
    }
    None
}

#[tactic(auto, unfolding(crate::specs::Scissor::trimmed_scissor_of))]
fn trimmed_scissor_unchecked(
    clip: RoundedBox,
    scissor: RoundedBox,
    fringe: f32,
) -> Option<RoundedBox>
    ensures { result ≡ trimmed_scissor_of clip scissor fringe }
{
    let Some(p) = beside::alongside(scissor, clip) else {
        return Some(scissor);
    };
    if !sides::square(scissor) {
        return Some(scissor);
    }
    let frame = scissor.frame;
    let per_fringe = covering::per_fringe(frame.inverse(), fringe);
    trim(
        scissor,
        Axis::x(scissor, p, per_fringe),
        Axis::y(scissor, p, per_fringe),
    )
}

// What of a scissor still clips a draw under the clip too: each side that the clip lies within moves out
// past it. None when the clip lies within all four; the scissor as it is when its corners are round or
// its sides are not parallel to the clip's. Where the two lie apart a half extent may be below 0.
// Ruled out: no box, or a half extent of 0, where the two lie apart; a trim by the clip's own fringe.
pub fn trimmed_scissor(
    clip: RoundedBox,
    scissor: RoundedBox,
    fringe: f32,
) -> Result<Option<RoundedBox>, Fault>
    ensures { result ≡ trimmed_scissor_call clip scissor fringe }
{
    beside::pair_fringe_check(clip, scissor, fringe)?;
    Ok(trimmed_scissor_unchecked(clip, scissor, fringe))
}
