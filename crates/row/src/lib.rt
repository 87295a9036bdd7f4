// The piece of an edge that crosses a row: clipped to the row, and added to its cells. `span` is for
// the crates above: it is no call of the kiosk's.
#![tactic(auto)]

ghost use Rattle.std.specs.Prelude.{◌≡◌};
ghost use Rattle.accumulation.specs.Marks.{Ready};
ghost use Rattle.row.specs.Row.{ceil_column, inside_of, left_end, right_end, span_of};

// The first column that is not below x.
fn ceil_column(x: f32) -> usize
    ensures { result ≡ ceil_column x }
{
    let column = whole::to_column(x);
    if whole::from_whole(column) < x {
        column + 1
    } else {
        column
    }
}

// A piece that lies within the row.
fn inside(cells: &mut [f32], touched: &mut [u64], lo: f32, hi: f32, area: f32)
    requires { Ready cells.old touched.old }
    ensures cells_after { cells.new ≡ inside_of cells.old lo hi area }
    ensures ready { Ready cells.new touched.new }
{
    let cell = whole::to_column(lo);
    let last = ceil_column(hi);
    if last <= cell + 1 {
        accumulation::single(
            cells,
            touched,
            cell,
            0.5 * (lo + hi) - whole::from_whole(cell),
            area,
        );
    } else {
        accumulation::across(cells, touched, lo, hi, cell, last, area);
    }
}

// The end of a piece that lies further left, and the other.
fn left_end(xa: f32, xb: f32) -> f32
    ensures { result ≡ left_end xa xb }
{
    if xa <= xb { xa } else { xb }
}

fn right_end(xa: f32, xb: f32) -> f32
    ensures { result ≡ right_end xa xb }
{
    if xa <= xb { xb } else { xa }
}

// Adds the piece of an edge inside the row: from `xa` at its top to `xb` at its bottom, `area` the
// height that it spans there, signed. An end outside the row is clipped, and what is left has one
// end fewer outside.
pub fn span(cells: &mut [f32], touched: &mut [u64], xa: f32, xb: f32, area: f32)
    requires { Ready cells.old touched.old }
    ensures cells_after { cells.new ≡ span_of cells.old xa xb area }
    ensures ready { Ready cells.new touched.new }
{
    let width = whole::from_whole(cells.len());
    let lo = left_end(xa, xb);
    let hi = right_end(xa, xb);
    if lo >= width {
        return;
    }
    if hi <= 0.0 {
        accumulation::add(cells, touched, 0, area);
        return;
    }
    if lo < 0.0 {
        let outside = lo / (lo - hi);
        accumulation::add(cells, touched, 0, area * outside);
        span(cells, touched, 0.0, hi, area * (1.0 - outside));
        return;
    }
    if hi > width {
        let within = (width - lo) / (hi - lo);
        span(cells, touched, lo, width, area * within);
        return;
    }
    inside(cells, touched, lo, hi, area);
}
