// The contours of a group, read from a word list that was checked: their edges, stored in lent floats.
#![tactic(auto)]

ghost use Rattle.std.specs.Prelude.{◌≡◌, false, Some, ◌+◌, ◌*◌, ◌≤◌, ◌<◌, ℤ, pos, length, get_or, drop};
ghost use Rattle.word_list.specs.Words.{beyond, read_points, read_contours, points_of};
ghost use Rattle.words.specs.Scan.{Fine, points_from, contours_from, end_of};
ghost use Rattle.edge.specs.Floats.{Pushed};
ghost use Rattle.contour.specs.Contours.{coordinate_of, contour_of, edges_of};

use edge::Point;

// SUBPIXELS of coverage.rs: how many steps of a coordinate make a cell.
const SUBPIXELS: f32 = 256.0;

// A coordinate word, in cells.
fn coordinate(word: Option<i32>) -> f32
    requires { (w : ℤ) → word ≡ Some w → beyond w ≡ false }
    ensures { (w : ℤ) → word ≡ Some w → result ≡ coordinate_of w }
{
    let Some(x) = word else {
        return 0.0;
    };
    (x as f32) / SUBPIXELS
}

// The point whose words stand at a place.
fn point_at(words: &[i32], at: usize) -> Point
    requires at_in_bounds { at + 1 < length words.now }
    requires pos_value { (beyond (get_or words.now at (pos 0)) ≡ false) × (beyond (get_or words.now (at + 1) (pos 0)) ≡ false) }
    ensures { (result.x ≡ coordinate_of (get_or words.now at (pos 0))) × (result.y ≡ coordinate_of (get_or words.now (at + 1) (pos 0))) }
{
    let pair = word_reader::pair_at(words, at);
    Point {
        x: coordinate(pair.first),
        y: coordinate(pair.second),
    }
}

// Stores the edges of a closed contour of n points, whose words start at `at`, behind `stored`
// others that stand from `edges` on. Returns how many there are now.
fn contour(
    words: &[i32],
    at: usize,
    n: usize,
    floats: &mut [f32],
    edges: usize,
    stored: usize,
    height: usize,
) -> usize
    requires fine { Fine (read_points n (drop at words.now)) }
    requires n_in_bounds { (edges + 5 * (stored + n) ≤ length floats.old) × (height ≤ 4096) }
    ensures { Pushed floats.old floats.new edges stored result n (contour_of height (points_from words.now at n)) }
{
    if n == 0 {
        return stored;
    }
    let last = at + 2 * (n - 1);
    let mut from = point_at(words, last);
    let mut count = stored;
    for i in 0..n {
        let to = point_at(words, at + 2 * i);
        count = edge::push(floats, edges, count, from, to, height);
        from = to;
    }
    count
}

// Where reading goes on, and how many edges are stored.
#[derive(Clone, Copy)]
pub struct Progress {
    pub at: usize,
    pub count: usize,
}

// Stores the edges of n contours, whose words start at `from`.
pub fn contours(
    words: &[i32],
    from: usize,
    n: usize,
    floats: &mut [f32],
    edges: usize,
    height: usize,
) -> Progress
    requires fine { Fine (read_contours n 0 (drop from words.now)) }
    requires from_in_bounds { from ≤ length words.now }
    requires n_in_bounds { (edges + 5 * points_of (contours_from words.now from n) ≤ length floats.old) × (height ≤ 4096) }
    ensures pushed { Pushed floats.old floats.new edges 0 result.count
        (points_of (contours_from words.now from n)) (edges_of height (contours_from words.now from n)) }
    ensures at_value { result.at ≡ end_of (length words.now) (read_contours n 0 (drop from words.now)) }
{
    let mut at = from;
    let mut count = 0;
    for _ in 0..n {
        let Ok(points) = word_reader::count_at(words, at) else {
            return Progress { at, count };
        };
        count = contour(words, at + 1, points, floats, edges, count, height);
        at = at + 1 + 2 * points;
    }
    Progress { at, count }
}
