// The box that an outline draws: `parallelogram`, `fit_with_cut`, `fit_outline` and `fit` of femtovg's
// clip/shape.rs.
//
// A call of the same name as the Rust's refuses as documents 01 and 02 say and else answers what the
// Rust does, by a definition of specs/.
#![tactic(auto)]

ghost use Rattle.std.specs.Prelude.{◌≡◌, ◌<◌, ◌≤◌, ◌+◌, length};
ghost use Rattle.outline.specs.Outline.{most_verbs, most_points};
ghost use Rattle.outline.specs.Contour.{Contour, reached, contour_of};
ghost use Rattle.outline.specs.Kept.{walk_of, count_of, Ended};
ghost use Rattle.rounded.specs.Rounded.{rounded_of};
ghost use Rattle.fit.specs.Fit.{from_start_of, size_of, cross_of, turns_of, turns_at_of, close_of, centred_of};
ghost use Rattle.fit.specs.Fit.{spanned_of, corners_box_of, parallelogram_of, half_side_of};
ghost use Rattle.fit.specs.Fit.{closed_of, whole_of, walked_fitted_of, fit_with_cut_of, fit_of};
ghost use Rattle.fit.specs.Calls.{outline_answer, fit_call, fit_outline_call, fit_with_cut_call};
ghost use Rattle.fit.specs.Kept.{Turned, ClosedCount, Reached};

use fault::Fault;
use geometry::{Position, Transform2D};
use outline::{MOST_POINTS, ORIGIN, Outline, Segment, Walk};
use rounded::Fitted;
use shape::RoundedBox;

// ---- the parallelogram

// How far a point is from the start, along the further axis.
#[tactic(auto, unfolding(crate::specs::Fit::from_start_of))]
fn from_start(start: Position, p: Position) -> f32
    ensures { result ≡ from_start_of start p }
{
    float::max(float::abs(p.x - start.x), float::abs(p.y - start.y))
}

// The size of an outline.
fn size(start: Position, points: &[Position]) -> f32
    ensures { result ≡ size_of start points.now }
{
    points
        .iter()
        .fold(0.0, |size, p| float::max(size, from_start(start, *p)))
}

// Four corners in order around a parallelogram.
#[derive(Clone, Copy)]
pub struct Corners {
    pub p0: Position,
    pub p1: Position,
    pub p2: Position,
    pub p3: Position,
}

impl Corners {
    // How far a polygon's corners may be from a parallelogram's, as a share of its size.
    const CORNER_TOLERANCE: f32 = 1e-4;

    // Twice the area of a triangle, with its sign.
    #[tactic(auto, unfolding(crate::specs::Fit::cross_of))]
    fn cross(a: Position, b: Position, c: Position) -> f32
        ensures { result ≡ cross_of a b c }
    {
        (b.x - a.x) * (c.y - b.y) - (b.y - a.y) * (c.x - b.x)
    }

    // Whether an outline turns at b, between a and c.
    #[tactic(auto, unfolding(crate::specs::Fit::turns_of))]
    fn turns(a: Position, b: Position, c: Position, size: f32) -> bool
        ensures { result ≡ turns_of a b c size }
    {
        float::abs(Self::cross(a, b, c)) > Self::CORNER_TOLERANCE * size * size
    }

    #[tactic(auto, unfolding(crate::specs::Fit::close_of))]
    fn close(a: f32, b: f32, size: f32) -> bool
        ensures { result ≡ close_of a b size }
    {
        float::abs(a - b) <= Self::CORNER_TOLERANCE * size
    }

    // Whether the two diagonals have one middle.
    #[tactic(auto, unfolding(crate::specs::Fit::centred_of))]
    fn centred(self, size: f32) -> bool
        ensures { result ≡ centred_of self size }
    {
        let Self { p0, p1, p2, p3 } = self;
        Self::close(p0.x + p2.x, p1.x + p3.x, size) && Self::close(p0.y + p2.y, p1.y + p3.y, size)
    }

    fn half_side(p: Position, q: Position) -> Position
        ensures { result ≡ half_side_of p q }
    {
        Position {
            x: (q.x - p.x) * 0.5,
            y: (q.y - p.y) * 0.5,
        }
    }

    // The box with the half sides u and v, and p0 and p2 opposite each other.
    #[tactic(auto, unfolding(crate::specs::Fit::spanned_of))]
    fn spanned(u: Position, v: Position, p0: Position, p2: Position) -> RoundedBox
        ensures { result ≡ spanned_of u v p0 p2 }
    {
        let ex = roots::hypot(u.x, u.y);
        let ey = roots::hypot(v.x, v.y);
        let frame = Transform2D {
            a: u.x / ex,
            b: u.y / ex,
            c: v.x / ey,
            d: v.y / ey,
            x: (p0.x + p2.x) * 0.5,
            y: (p0.y + p2.y) * 0.5,
        };
        RoundedBox {
            frame,
            ex,
            ey,
            rx: 0.0,
            ry: 0.0,
        }
    }

    #[tactic(auto, unfolding(crate::specs::Fit::corners_box_of))]
    fn parallelogram(self, size: f32) -> Option<RoundedBox>
        ensures { result ≡ corners_box_of self size }
    {
        if !self.centred(size) {
            return None;
        }
        let Self { p0, p1, p2, p3 } = self;
        let u = Self::half_side(p0, p1);
        let v = Self::half_side(p0, p3);
        Some(Self::spanned(u, v, p0, p2))
    }
}

// Whether the outline turns at point i.
fn turns_at(points: &[Position], size: f32, i: usize) -> bool
    requires { (length points.now ≤ most_points) × (i < length points.now) }
    ensures { result ≡ turns_at_of points.now (length points.now) size i }
{
    let n = points.len();
    let before = points[(i + n - 1) % n];
    let after = points[(i + 1) % n];
    Corners::turns(before, points[i], after, size)
}

// At how many points the outline turns; the first four of them go to `corners`.
fn turning_points(points: &[Position], size: f32, corners: &mut [Position; 4]) -> usize
    requires { length points.now ≤ most_points }
    ensures { Turned points.now size result corners.new }
{
    let mut m: usize = 0;
    for (i, p) in points.iter().enumerate() {
        if turns_at(points, size, i) {
            if m < 4 {
                corners[m] = *p;
            }
            m += 1;
        }
    }
    m
}

fn parallelogram(start: Position, points: &[Position]) -> Option<RoundedBox>
    requires { length points.now ≤ most_points }
    ensures { result ≡ parallelogram_of start points.now }
{
    let size = size(start, points);
    let mut corners = [ORIGIN; 4];
    let m = turning_points(points, size, &mut corners);
    if m != 4 {
        return None;
    }
    let [p0, p1, p2, p3] = corners;
    Corners { p0, p1, p2, p3 }.parallelogram(size)
}

// ---- the box of a contour

// A parallelogram's outline does not stray.
fn whole(found: Option<RoundedBox>) -> Option<Fitted>
    ensures { result ≡ whole_of found }
{
    let Some(shape) = found else {
        return None;
    };
    Some(Fitted {
        shape,
        strays: 0.0,
        cut: None,
    })
}

// How many segments a contour has once it is closed, by a line where it is not back at its start.
fn closed_count(walk: Walk) -> usize
    requires { walk.count + count_of walk.started ≤ most_verbs }
    ensures { ClosedCount walk result }
{
    let n = walk.count;
    if outline::same_place(walk.last, walk.start) {
        return n;
    }
    n + 1
}

// The box of a contour once it is closed, where one of its segments is a curve.
fn curved(outline: Outline, walk: Walk) -> Option<Fitted>
    requires count_lt_most_verbs { walk.count < most_verbs }
    requires reached { Reached (contour_of outline.verbs.now outline.positions.now) walk }
    ensures { (k : Contour) → contour_of outline.entry.verbs.now outline.entry.positions.now ≡ reached k → walk ≡ walk_of k
        → result ≡ rounded_of k.start (closed_of k) }
{
    let start = walk.start;
    let mut segments = outline::segments(outline);
    if !outline::same_place(walk.last, start) {
        segments.push(Segment::Line(start.x, start.y));
    }
    rounded::rounded(start, &segments)
}

// The box of a contour once it is closed.
fn closed(outline: Outline, walk: Walk, points: &[Position; MOST_POINTS]) -> Option<Fitted>
    requires ended { Ended (contour_of outline.verbs.now outline.positions.now) (Some walk) points.now }
    ensures { result ≡ walked_fitted_of (contour_of outline.entry.verbs.now outline.entry.positions.now) }
{
    if !walk.started {
        return None;
    }
    let n = closed_count(walk);
    if n == 0 {
        return None;
    }
    if !walk.straight {
        return curved(outline, walk);
    }
    whole(parallelogram(walk.start, &points[..n]))
}

#[tactic(auto, unfolding(crate::specs::Fit::fit_with_cut_of))]
fn fit_with_cut_unchecked(outline: Outline) -> Option<Fitted>
    ensures { result ≡ fit_with_cut_of outline.entry.verbs.now outline.entry.positions.now }
{
    let mut points = [ORIGIN; MOST_POINTS];
    let Some(walk) = outline::contour(outline, &mut points) else {
        return None;
    };
    closed(outline, walk, &points)
}

// ---- the calls

// The box and its strays, where it is not cut.
fn fit_outline_unchecked(outline: Outline) -> Option<(RoundedBox, f32)>
    ensures { result ≡ outline_answer (fit_with_cut_of outline.entry.verbs.now outline.entry.positions.now) }
{
    let Some(
        Fitted {
            shape,
            strays,
            cut: None,
        },
    ) = fit_with_cut_unchecked(outline)
    else {
        return None;
    };
    Some((shape, strays))
}

#[tactic(auto, unfolding(crate::specs::Fit::fit_of))]
pub fn fit_unchecked(outline: Outline) -> Option<RoundedBox>
    ensures { result ≡ fit_of outline.entry.verbs.now outline.entry.positions.now }
{
    let Some(
        Fitted {
            shape,
            cut: None,
            ..
        },
    ) = fit_with_cut_unchecked(outline)
    else {
        return None;
    };
    Some(shape)
}

// The box that an outline draws, its strays, and for a rectangle with the two corners of one side round
// the box that cuts it there.
// Ruled out: strays without the tenth on top; the cut found from another side.
pub fn fit_with_cut(verbs: &[u8], positions: &[f32]) -> Result<Option<Fitted>, Fault>
    ensures { result ≡ fit_with_cut_call verbs.now positions.now }
{
    let outline = Outline::checked(verbs, positions)?;
    Ok(fit_with_cut_unchecked(outline))
}

// The box that an outline draws and how far the outline strays outside it; none where it is cut.
// Ruled out: a cut's first box; strays of -0 for a straight outline.
pub fn fit_outline(verbs: &[u8], positions: &[f32]) -> Result<Option<(RoundedBox, f32)>, Fault>
    ensures { result ≡ fit_outline_call verbs.now positions.now }
{
    let outline = Outline::checked(verbs, positions)?;
    Ok(fit_outline_unchecked(outline))
}

// The box that an outline draws, if it is one: a single contour that goes once around a parallelogram,
// or around an upright rounded rectangle or ellipse.
// Ruled out: a box for an outline with a fifth corner; no box for a thin one, whose turns pass 1e-4 of
// the size squared and not 1e-4 of the size; a cut's first box.
pub fn fit(verbs: &[u8], positions: &[f32]) -> Result<Option<RoundedBox>, Fault>
    ensures { result ≡ fit_call verbs.now positions.now }
{
    let outline = Outline::checked(verbs, positions)?;
    Ok(fit_unchecked(outline))
}
