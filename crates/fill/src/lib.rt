// An upright rect that is filled under a clip: `RectFill`, `upright` and `rect_fill` of femtovg's
// clip/shape.rs. `clip` is the Rust's self.
//
// A call refuses as document 01 says and else answers what the Rust does. What it rests on ends in
// `_unchecked` and takes any floats. Each contract gives the answer outright, by a definition of specs/.
#![tactic(auto)]

ghost use Rattle.std.specs.Prelude.{◌≡◌};
ghost use Rattle.fill.specs.Fill.{none_of, both_none_of, upright_of, shared_of, covers_of, grown_of, covered_by_of, covered_of, rect_fill_of};
ghost use Rattle.fill.specs.Calls.{rect_fill_call};

use beside::Placed;
use clip_coverage::ClipCoverage;
use fault::Fault;
use geometry::Position;
use scissor::Axis;
use shape::RoundedBox;

// What an upright rect filled under a clip is drawn as in its place.
#[derive(Clone, Copy)]
pub enum RectFill {
    // the rect that the fill shares with a rect clip, antialiased by its own fringe, with no clip
    Shared(RoundedBox),
    // a rect a fringe width around the clip that the fill covers, with no fringe of its own, under the
    // clip's coverage
    Covered(RoundedBox),
}

impl RectFill {
    // The verbs past which an outline is not asked whether it is a rect that is filled.
    pub const MAX_FILL_VERBS: usize = 8;
}

// ---- upright

// Whether a number of a frame is none beside the frame's scale, and whether both of two are.
#[tactic(auto, unfolding(crate::specs::Fill::none_of))]
fn none(v: f32, scale: f32) -> bool
    ensures { result ≡ none_of v scale }
{
    float::abs(v) <= Placed::ALIGNED_SHARE * scale
}

#[tactic(auto, unfolding(crate::specs::Fill::both_none_of))]
fn both_none(v: f32, w: f32, scale: f32) -> bool
    ensures { result ≡ both_none_of v w scale }
{
    none(v, scale) && none(w, scale)
}

// Whether a box's sides lie along the device's axes.
#[tactic(auto, unfolding(crate::specs::Fill::upright_of))]
pub fn upright(b: RoundedBox) -> bool
    ensures { result ≡ upright_of b }
{
    let t = b.frame;
    let scale = beside::scale(t);
    both_none(t.b, t.c, scale) || both_none(t.a, t.d, scale)
}

// ---- rect_fill

// The rect that a fill shares with a rect clip, where it has a coverage.
#[tactic(auto, unfolding(crate::specs::Fill::shared_of))]
fn shared(clip: RoundedBox, fill: RoundedBox, fringe: f32) -> Option<RectFill>
    ensures { result ≡ shared_of clip fill fringe }
{
    let (both, _) = scissor::with_scissor_unchecked(clip, fill, fringe)?;
    Some(RectFill::Shared(both))
}

// Whether the other box's sides on an axis lie at or past the box's, to DRAW_SLACK.
#[tactic(auto, unfolding(crate::specs::Fill::covers_of))]
fn covers(a: Axis) -> bool
    ensures { result ≡ covers_of a }
{
    let reach = a.extent - ClipCoverage::DRAW_SLACK * a.per_fringe;
    a.centre - a.half <= -reach && a.centre + a.half >= reach
}

// The clip grown by a fringe width, with square corners.
#[tactic(auto, unfolding(crate::specs::Fill::grown_of))]
fn grown(clip: RoundedBox, per_fringe: Position) -> RoundedBox
    ensures { result ≡ grown_of clip per_fringe }
{
    RoundedBox {
        ex: clip.ex + per_fringe.x,
        ey: clip.ey + per_fringe.y,
        rx: 0.0,
        ry: 0.0,
        ..clip
    }
}

// The clip itself, where a fill that is placed in its frame covers it.
#[tactic(auto, unfolding(crate::specs::Fill::covered_by_of))]
fn covered_by(clip: RoundedBox, p: Placed, per_fringe: Position) -> Option<RectFill>
    ensures { result ≡ covered_by_of clip p per_fringe }
{
    if covers(Axis::x(clip, p, per_fringe)) && covers(Axis::y(clip, p, per_fringe)) {
        return Some(RectFill::Covered(grown(clip, per_fringe)));
    }
    None
}

#[tactic(auto, unfolding(crate::specs::Fill::covered_of))]
fn covered(clip: RoundedBox, fill: RoundedBox, fringe: f32) -> Option<RectFill>
    ensures { result ≡ covered_of clip fill fringe }
{
    let p = beside::alongside(clip, fill)?;
    let frame = clip.frame;
    covered_by(clip, p, covering::per_fringe(frame.inverse(), fringe))
}

#[tactic(auto, unfolding(crate::specs::Fill::rect_fill_of))]
fn rect_fill_unchecked(clip: RoundedBox, fill: RoundedBox, fringe: f32) -> Option<RectFill>
    ensures { result ≡ rect_fill_of clip fill fringe }
{
    if !upright(clip) {
        return None;
    }
    if sides::square(clip) {
        return shared(clip, fill, fringe);
    }
    covered(clip, fill, fringe)
}

// What an upright rect filled under a clip is drawn as: under an upright rect clip, the rect that the two
// share, when it has a coverage; under an upright box with round corners that the rect covers whole, the
// box itself. Of the fill neither is asked, that it is upright or that its corners are square.
// Ruled out: a shared rect that has no coverage; the clip without the fringe width around it.
pub fn rect_fill(clip: RoundedBox, fill: RoundedBox, fringe: f32) -> Result<Option<RectFill>, Fault>
    ensures { result ≡ rect_fill_call clip fill fringe }
{
    beside::pair_fringe_check(clip, fill, fringe)?;
    Ok(rect_fill_unchecked(clip, fill, fringe))
}
