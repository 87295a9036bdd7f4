// The points of an outline of lines and curves, and its anchors: the head of `rounded` of femtovg's
// clip/shape.rs. Each contract gives the points by a definition of specs/.
#![tactic(auto)]

ghost use Rattle.std.specs.Prelude.{◌≡◌, ◌++◌, ◌+◌, ◌≤◌, length};
ghost use Rattle.outline.specs.Outline.{most_verbs};
ghost use Rattle.samples.specs.Samples.{most_samples, bezier_of, end_of, middle_of, sample_of, line_samples_of, curve_samples_of, segment_samples_of, outline_of, anchors_of};

use arrayvec::ArrayVec;
use geometry::Position;
use outline::{MOST_POINTS, Segment};

// The most points of an outline: its start, and eight for each segment.
pub const MOST_SAMPLES: usize = 2049;

// CURVE_SAMPLES: how many points of a curve are looked at between its ends.
const CURVE_SAMPLES: usize = 7;

// ---- one segment

// `at(k)`: the curve at t, along one axis.
#[tactic(auto, unfolding(crate::specs::Samples::bezier_of))]
fn bezier(from: f32, c1: f32, c2: f32, end: f32, t: f32) -> f32
    ensures { result ≡ bezier_of from c1 c2 end t }
{
    let s = 1.0 - t;
    s * s * s * from + 3.0 * s * s * t * c1 + 3.0 * s * t * t * c2 + t * t * t * end
}

// Where a segment ends.
fn end(segment: Segment) -> Position
    ensures { result ≡ end_of segment }
{
    match segment {
        Segment::Line(x, y) | Segment::Cubic(_, _, _, _, x, y) => Position { x, y },
    }
}

#[tactic(auto, unfolding(crate::specs::Samples::middle_of))]
fn middle(from: Position, end: Position) -> Position
    ensures { result ≡ middle_of from end }
{
    Position {
        x: (from.x + end.x) * 0.5,
        y: (from.y + end.y) * 0.5,
    }
}

// A curve's sample i.
#[tactic(auto, unfolding(crate::specs::Samples::sample_of))]
fn sample(from: Position, c1: Position, c2: Position, end: Position, i: usize) -> Position
    requires { i ≤ 8 }
    ensures { result ≡ sample_of from c1 c2 end i }
{
    let t = whole::from_whole(i) / 8.0;
    Position {
        x: bezier(from.x, c1.x, c2.x, end.x, t),
        y: bezier(from.y, c1.y, c2.y, end.y, t),
    }
}

// ---- points, one behind the other

fn push_line(from: Position, end: Position, points: &mut ArrayVec<Position, MOST_SAMPLES>)
    requires { length points.old.items + 2 ≤ most_samples }
    ensures { points.new.items ≡ points.old.items ++ line_samples_of from end }
{
    points.push(middle(from, end));
    points.push(end);
}

fn push_curve(
    from: Position,
    c1: Position,
    c2: Position,
    end: Position,
    points: &mut ArrayVec<Position, MOST_SAMPLES>,
)
    requires { length points.old.items + 8 ≤ most_samples }
    ensures { points.new.items ≡ points.old.items ++ curve_samples_of from c1 c2 end }
{
    for i in 0..CURVE_SAMPLES {
        points.push(sample(from, c1, c2, end, i + 1));
    }
    points.push(end);
}

// A segment's points.
fn push_points(from: Position, segment: Segment, points: &mut ArrayVec<Position, MOST_SAMPLES>)
    requires { length points.old.items + 8 ≤ most_samples }
    ensures held { points.new.items ≡ points.old.items ++ segment_samples_of from segment }
    ensures count { length points.new.items ≤ length points.old.items + 8 }
{
    match segment {
        Segment::Line(x, y) => push_line(from, Position { x, y }, points),
        Segment::Cubic(a, b, c, d, x, y) => {
            let c1 = Position { x: a, y: b };
            let c2 = Position { x: c, y: d };
            push_curve(from, c1, c2, Position { x, y }, points);
        }
    }
}

// ---- all segments

// The outline in order.
// Ruled out: a curve's ends alone; the two control points exchanged.
pub fn outline_points(start: Position, segments: &[Segment]) -> ArrayVec<Position, MOST_SAMPLES>
    requires { length segments.now ≤ most_verbs }
    ensures { result.items ≡ outline_of start segments.now }
{
    let mut points = ArrayVec::new();
    points.push(start);
    let mut from = start;
    for segment in segments {
        push_points(from, *segment, &mut points);
        from = end(*segment);
    }
    points
}

// The start and the segments' ends, one more than there are segments.
// Ruled out: the ends without the start; a curve's control point for its end.
pub fn anchors(start: Position, segments: &[Segment]) -> ArrayVec<Position, MOST_POINTS>
    requires { length segments.now ≤ most_verbs }
    ensures { result.items ≡ anchors_of start segments.now }
{
    let mut points = ArrayVec::new();
    points.push(start);
    for segment in segments {
        points.push(end(*segment));
    }
    points
}
