// The active edges of a row: those kept from the row above and those that join in it. Their pieces
// are added to the row's cells. They stand in lent scratch, laid out as the crate `edge` shows. The
// public functions are for the crates above: none is a call of the kiosk's.
#![tactic(auto)]

ghost use Rattle.std.specs.Prelude.{◌≡◌, ◌+◌, ◌*◌, ◌≤◌, length, set};
ghost use Rattle.accumulation.specs.Marks.{Ready};
ghost use Rattle.active_edges.specs.Active.{piece_of};
ghost use Rattle.active_edges.specs.Floats.{Joining, Joined, Kept, ActiveRow, Pieces};

use edge::{Edge, Layout};

// Takes a row's edges out of the table and copies them behind the active ones that were kept.
// Returns how many are active now.
pub fn join(floats: &mut [f32], heads: &mut [u64], l: Layout, kept: usize, row: usize) -> usize
    requires { Joining floats.old heads.old l kept row }
    ensures joined { Joined floats.old floats.new l kept row result }
    ensures heads_after { heads.new ≡ set heads.old row 0 }
{
    let mut n = kept;
    let mut at = heads[row] as usize;
    heads[row] = 0;
    while 0 < at {
        let k = at - 1;
        let e = edge::load(floats, l.width + 5 * k);
        edge::store(floats, l.active + 5 * n, e);
        let next = l.nexts + k;
        at = whole::to_column(floats[next]);
        n += 1;
    }
    n
}

// One edge's piece in the row from `top` to `bottom`.
fn piece(cells: &mut [f32], touched: &mut [u64], e: Edge, top: f32, bottom: f32, height: f32)
    requires { Ready cells.old touched.old }
    ensures cells_after { cells.new ≡ piece_of height top bottom cells.old e }
    ensures ready { Ready cells.new touched.new }
{
    let y = float::max(e.y, top);
    let next = float::min(float::min(bottom, e.bottom), height);
    row::span(cells, touched, e.at(y), e.at(next), (next - y) * e.down);
}

// Keeps an active edge that reaches below the row. Returns how many are kept now.
fn keep(floats: &mut [f32], l: Layout, kept: usize, e: Edge, bottom: f32) -> usize
    requires { l.active + 5 * kept + 5 ≤ length floats.old }
    ensures { Kept floats.old l kept e bottom floats.new result }
{
    if e.bottom > bottom {
        edge::store(floats, l.active + 5 * kept, e);
        return kept + 1;
    }
    kept
}

// Adds the pieces of n active edges to the row's cells, and keeps the edges that reach below the
// row. Returns how many these are.
pub fn pieces(
    floats: &mut [f32],
    touched: &mut [u64],
    l: Layout,
    n: usize,
    top: f32,
    bottom: f32,
    height: f32,
) -> usize
    requires { ActiveRow floats.old touched.old l n }
    ensures pieces { Pieces floats.old l n height top bottom floats.new result }
    ensures active_row { ActiveRow floats.new touched.new l result }
{
    let width = l.width;
    let mut kept = 0;
    for i in 0..n {
        let e = edge::load(floats, l.active + 5 * i);
        piece(&mut floats[..width], touched, e, top, bottom, height);
        kept = keep(floats, l, kept, e, bottom);
    }
    kept
}
