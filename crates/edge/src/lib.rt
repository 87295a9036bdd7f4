// Edges: those of contours, and the edge table by start row. The public functions are for the
// crates above: none is a call of the kiosk's.
//
// They stand in lent scratch, with the active edges behind them:
//
//     floats:    [ width cells ][ 5 × points: edges ][ points: nexts ][ 5 × points: active edges ]
//     counters:  [ accumulation::mark_words(width): marks ][ height: heads ]
//
// A row's head is one more than the place of the first edge that starts in it, an edge's next one
// more than that of the next edge of the same row, and 0 ends the list.
#![tactic(auto)]

ghost use Rattle.std.specs.Prelude.{◌≡◌, ℕ, ◌+◌, ◌*◌, ◌≤◌, ◌<◌, length, get_or, set};
ghost use Rattle.whole.specs.Whole.{of_whole};
ghost use Rattle.edge.specs.Edges.{sloped_of, edge_between, start_row, at_of};
ghost use Rattle.edge.specs.Floats.{edge_at, put_edge, Pushed};
ghost use Rattle.edge.specs.Table.{nth, Placed, InTable, NextsChanged};

// A point of a contour, in cells.
#[derive(Clone, Copy)]
pub struct Point {
    pub x: f32,
    pub y: f32,
}

// An edge from its top to its bottom: x and y at the top, the y at its bottom, the change in x for
// each unit of y, and 1 if it was drawn downwards, -1 if upwards.
#[derive(Clone, Copy)]
pub struct Edge {
    pub x: f32,
    pub y: f32,
    pub bottom: f32,
    pub slope: f32,
    pub down: f32,
}

impl Edge {
    pub fn at(self, y: f32) -> f32
        ensures { result ≡ at_of self y }
    {
        self.x + (y - self.y) * self.slope
    }
}

// The row's width, where the edges' nexts and the active edges start in the floats, and how many
// edges there are. The edges start where the row's cells end.
#[derive(Clone, Copy)]
pub struct Layout {
    pub width: usize,
    pub nexts: usize,
    pub active: usize,
    pub count: usize,
}

pub fn load(floats: &[f32], at: usize) -> Edge
    requires { at + 5 ≤ length floats.now }
    ensures { result ≡ edge_at floats.now at }
{
    Edge {
        x: floats[at],
        y: floats[at + 1],
        bottom: floats[at + 2],
        slope: floats[at + 3],
        down: floats[at + 4],
    }
}

pub fn store(floats: &mut [f32], at: usize, e: Edge)
    requires { at + 5 ≤ length floats.old }
    ensures { floats.new ≡ put_edge floats.old at e }
{
    floats[at] = e.x;
    floats[at + 1] = e.y;
    floats[at + 2] = e.bottom;
    floats[at + 3] = e.slope;
    floats[at + 4] = e.down;
}

// ---- edges of contours

// Stores the edge down from one point to another, unless it lies above the mask or below it.
fn push_down(
    floats: &mut [f32],
    edges: usize,
    count: usize,
    top: Point,
    bottom: Point,
    down: f32,
    height: usize,
) -> usize
    requires count_in_bounds { edges + 5 * count + 5 ≤ length floats.old }
    requires height_bound { height ≤ 4096 }
    ensures { Pushed floats.old floats.new edges count result 1 (sloped_of height top.x top.y bottom.x bottom.y down) }
{
    if bottom.y <= 0.0 || top.y >= whole::from_whole(height) {
        return count;
    }
    let e = Edge {
        x: top.x,
        y: top.y,
        bottom: bottom.y,
        slope: (bottom.x - top.x) / (bottom.y - top.y),
        down,
    };
    store(floats, edges + 5 * count, e);
    count + 1
}

// Stores the edge between two points behind `count` others, unless it is level or lies outside the
// mask's rows. Returns how many there are now.
pub fn push(
    floats: &mut [f32],
    edges: usize,
    count: usize,
    from: Point,
    to: Point,
    height: usize,
) -> usize
    requires count_in_bounds { edges + 5 * count + 5 ≤ length floats.old }
    requires height_bound { height ≤ 4096 }
    ensures { Pushed floats.old floats.new edges count result 1 (edge_between height from.x from.y to.x to.y) }
{
    if from.y == to.y {
        return count;
    }
    if from.y < to.y {
        return push_down(floats, edges, count, from, to, 1.0, height);
    }
    push_down(floats, edges, count, to, from, -1.0, height)
}

// ---- the edge table

// The row that an edge joins in.
fn start_row(e: Edge) -> usize
    ensures { result ≡ start_row e }
{
    whole::to_column(float::max(e.y, 0.0))
}

// Puts edge i before the others of its row.
fn link(floats: &mut [f32], heads: &mut [u64], nexts: usize, i: usize, row: usize)
    requires i_in_bounds { (nexts + i < length floats.old) × (row < length heads.old) }
    requires row_bound { (get_or heads.old row 0 ≤ 2048) × (i < 2048) }
    ensures floats_after { floats.new ≡ set floats.old (nexts + i) (of_whole (get_or heads.old row 0)) }
    ensures heads_after { heads.new ≡ set heads.old row (i + 1) }
{
    floats[nexts + i] = whole::from_whole(heads[row] as usize);
    heads[row] = (i + 1) as u64;
}

// Makes the edge table, from the last edge to the first. The heads are 0 before, and each edge
// starts in a row that has one.
pub fn table(floats: &mut [f32], heads: &mut [u64], l: Layout)
    requires placed { Placed floats.old l }
    requires by_index { (row : ℕ) → row < length heads.old → get_or heads.old row 0 ≡ 0 }
    requires by_index_2 { (j : ℕ) → j < l.count → start_row (nth floats.old l j) < length heads.old }
    ensures in_table { InTable floats.new heads.new l 0 }
    ensures nexts_changed { NextsChanged floats.old floats.new l }
{
    for i in (0..l.count).rev() {
        let e = load(floats, l.width + 5 * i);
        link(floats, heads, l.nexts, i, start_row(e));
    }
}
