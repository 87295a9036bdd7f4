// An outline: what is refused of its verbs and positions, and its single contour. `contour` of
// femtovg's clip/shape.rs.
#![tactic(auto)]

ghost use Rattle.std.specs.Prelude.{◌≡◌, ◌<◌, ◌≤◌, length};
ghost use Rattle.outline.specs.Outline.{verb_check_of, verbs_check_of, floats_of, floats_needed_of, all_in_range_of, most_verbs, most_points, outline_check_of};
ghost use Rattle.outline.specs.Contour.{Contour, new_contour, same_place_of, draw_of, move_of, contour_step_of, contour_of};
ghost use Rattle.outline.specs.Kept.{walk_of, walk_pushed_of, walk_closed_of, shut_of, step_of, candidate_of, Ended, Stored};

use arrayvec::ArrayVec;
use fault::{Check, Fault};
use geometry::Position;
use path::{PackedVerb, Verb};

// The most verbs of an outline; of segments: one for each verb but the MoveTo, and one that closes the
// contour; and of points: the start, and each segment's end.
pub const MOST_VERBS: usize = 256;

pub const MOST_SEGMENTS: usize = 256;

pub const MOST_POINTS: usize = 257;

pub const ORIGIN: Position = Position { x: 0.0, y: 0.0 };

// A line's end, or a curve's three points.
#[derive(Clone, Copy, Drop)]
pub enum Segment {
    Line(f32, f32),
    Cubic(f32, f32, f32, f32, f32, f32),
}

// What a place of a list holds that has no segment yet.
impl Default for Segment {
    fn default() -> Self {
        Segment::Line(0.0, 0.0)
    }
}

// ---- refusals

// The check of one verb: 8 for a byte that is none.
#[tactic(auto, unfolding(crate::specs::Outline::verb_check_of))]
fn verb_check(byte: u8) -> Check
    ensures { result ≡ verb_check_of byte }
{
    PackedVerb::try_from(byte)?;
    Ok(())
}

// The first verb at fault.
fn verbs_check(verbs: &[u8]) -> Check
    ensures { result ≡ verbs_check_of verbs.now }
{
    for byte in verbs {
        verb_check(*byte)?;
    }
    Ok(())
}

// How many floats a verb's positions take.
#[tactic(auto, unfolding(crate::specs::Outline::floats_of))]
fn floats(byte: u8) -> usize
    ensures { result ≡ floats_of byte }
{
    let Ok(packed) = PackedVerb::try_from(byte) else {
        return 0;
    };
    2 * packed.num_coordinates()
}

// How many floats the verbs' positions take.
fn floats_needed(verbs: &[u8]) -> usize
    requires { length verbs.now ≤ most_verbs }
    ensures { result ≡ floats_needed_of verbs.now }
{
    let mut sum: usize = 0;
    for byte in verbs {
        sum += floats(*byte);
    }
    sum
}

fn all_in_range(positions: &[f32]) -> bool
    ensures { result ≡ all_in_range_of positions.now }
{
    positions.iter().all(|x| shape::number_in_range(*x))
}

#[tactic(auto, unfolding(crate::specs::Outline::outline_check_of))]
pub fn outline_check(verbs: &[u8], positions: &[f32]) -> Check
    ensures { result ≡ outline_check_of verbs.now positions.now }
{
    if verbs.len() > MOST_VERBS {
        return Err(Fault::TooManyVerbs);
    }
    verbs_check(verbs)?;
    if floats_needed(verbs) != positions.len() {
        return Err(Fault::PositionsMismatch);
    }
    shape::numbers_check(all_in_range(positions))
}

// ---- an outline without fault

// The verbs of an outline and the floats of their positions, as many as the verbs take.
#[derive(Clone, Copy)]
pub struct Outline<'a> {
    pub verbs: &'a [u8],
    pub positions: &'a [f32],
    ghost few: { length verbs.now ≤ most_verbs },
    ghost fits: { floats_needed_of verbs.now ≡ length positions.now },
}

impl<'a> Outline<'a> {
    ghost use Rattle.outline.specs.Checked.{Checked};

    // The outline, or what is refused of it.
    pub fn checked(verbs: &'a [u8], positions: &'a [f32]) -> Result<Self, Fault>
        ensures { Checked (outline_check_of verbs.now positions.now) verbs.now positions.now result }
    {
        outline_check(verbs, positions)?;
        Ok(Outline { verbs, positions })
    }
}

// ---- the contour

#[tactic(auto, unfolding(crate::specs::Contour::same_place_of))]
pub fn same_place(p: Position, q: Position) -> bool
    ensures { result ≡ same_place_of p q }
{
    p == q
}

// What is kept of a contour: its start and last position, how many segments it has, and whether all
// of them are lines.
#[derive(Clone, Copy)]
pub struct Walk {
    pub started: bool,
    pub closed: bool,
    pub straight: bool,
    pub start: Position,
    pub last: Position,
    pub count: usize,
}

impl Walk {
    #[tactic(auto, unfolding(crate::specs::Kept::walk_of))]
    fn new() -> Self
        ensures { result ≡ walk_of new_contour }
    {
        Self {
            started: false,
            closed: false,
            straight: true,
            start: ORIGIN,
            last: ORIGIN,
            count: 0,
        }
    }

    // The walk with one segment more.
    #[tactic(auto, unfolding(crate::specs::Kept::walk_pushed_of))]
    fn pushed(self, last: Position, straight: bool) -> Self
        requires { self.count < most_points }
        ensures { result ≡ walk_pushed_of self last straight }
    {
        Self {
            straight,
            last,
            count: self.count + 1,
            ..self
        }
    }

    // A MoveTo before any segment starts the contour; after one there is a second contour, and no box.
    #[tactic(auto, using(crate::proofs::Walking::move_first, crate::proofs::Walking::move_second))]
    fn move_to(self, p: Position) -> Option<Self>
        ensures { (k : Contour) → self ≡ walk_of k → result ≡ step_of (move_of k p) }
    {
        if self.count != 0 {
            return None;
        }
        Some(Self {
            started: true,
            start: p,
            last: p,
            ..self
        })
    }

    // Whether no segment may come now.
    #[tactic(auto, unfolding(crate::specs::Kept::shut_of))]
    fn shut(self) -> bool
        ensures { result ≡ shut_of self }
    {
        self.closed || !self.started
    }

    // A segment after the walk so far. A line to the last position adds none.
    #[tactic(auto, using(crate::proofs::Walking::draw_shut, crate::proofs::Walking::draw_same))]
    fn draw(self, segment: Segment) -> Option<Self>
        requires { self.count < most_points }
        ensures { (k : Contour) → self ≡ walk_of k → result ≡ step_of (draw_of k segment) }
    {
        if self.shut() {
            return None;
        }
        match segment {
            Segment::Line(x, y) => {
                let end = Position { x, y };
                if same_place(end, self.last) {
                    return Some(self);
                }
                Some(self.pushed(end, self.straight))
            }
            Segment::Cubic(_, _, _, _, x, y) => Some(self.pushed(Position { x, y }, false)),
        }
    }

    #[tactic(auto, unfolding(crate::specs::Kept::walk_closed_of))]
    fn close(self) -> Self
        ensures { result ≡ walk_closed_of self }
    {
        Self {
            closed: true,
            ..self
        }
    }

    // The walk after one verb more.
    #[tactic(auto, unfolding(crate::specs::Kept::walk_of, crate::specs::Kept::walk_closed_of))]
    fn step(self, verb: Verb) -> Option<Self>
        requires { self.count < most_points }
        ensures { (k : Contour) → self ≡ walk_of k → result ≡ step_of (contour_step_of k verb) }
    {
        match verb {
            Verb::MoveTo(x, y) => self.move_to(Position { x, y }),
            Verb::LineTo(x, y) => self.draw(Segment::Line(x, y)),
            Verb::BezierTo(a, b, c, d, x, y) => self.draw(Segment::Cubic(a, b, c, d, x, y)),
            Verb::Solid | Verb::Hole => Some(self),
            Verb::Close => Some(self.close()),
        }
    }
}

// The walk over all verbs. The start and the ends of the segments go to `points`.
pub fn contour(outline: Outline, points: &mut [Position; MOST_POINTS]) -> Option<Walk>
    ensures { Ended (contour_of outline.entry.verbs.now outline.entry.positions.now) result points.new }
{
    let mut walk = Walk::new();
    let mut at: usize = 0;
    for byte in outline.verbs {
        points[walk.count] = walk.last;
        let Ok(packed) = PackedVerb::try_from(*byte) else {
            return None;
        };
        let Some(next) = walk.step(Verb::from_packed(packed, outline.positions, at)) else {
            return None;
        };
        walk = next;
        at += 2 * packed.num_coordinates();
    }
    points[walk.count] = walk.last;
    Some(walk)
}

// ---- the segments

// The segment that a verb may add.
fn candidate(verb: Verb) -> Segment
    ensures { result ≡ candidate_of verb }
{
    match verb {
        Verb::MoveTo(x, y) | Verb::LineTo(x, y) => Segment::Line(x, y),
        Verb::BezierTo(a, b, c, d, x, y) => Segment::Cubic(a, b, c, d, x, y),
        Verb::Solid | Verb::Hole | Verb::Close => Segment::Line(0.0, 0.0),
    }
}

// The segments that the walk over all verbs adds: the same walk once more, for an outline with curves.
pub fn segments(outline: Outline) -> ArrayVec<Segment, MOST_SEGMENTS>
    ensures { Stored (contour_of outline.entry.verbs.now outline.entry.positions.now) result.items }
{
    let mut segments = ArrayVec::new();
    let mut walk = Walk::new();
    let mut at: usize = 0;
    for byte in outline.verbs {
        let Ok(packed) = PackedVerb::try_from(*byte) else {
            return segments;
        };
        let verb = Verb::from_packed(packed, outline.positions, at);
        let Some(next) = walk.step(verb) else {
            return segments;
        };
        if next.count > walk.count {
            segments.push(candidate(verb));
        }
        walk = next;
        at += 2 * packed.num_coordinates();
    }
    segments
}
