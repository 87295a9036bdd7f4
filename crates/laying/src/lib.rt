// One mask laid on another: `intersect` of coverage.rs, below its refusals.
#![tactic(auto)]

ghost use Rattle.std.specs.Prelude.{◌≡◌, ◌≤◌, pos, ◌*ℤ◌, length};
ghost use Rattle.cells.specs.Cells.{cells_of, SizeAllowed};
ghost use Rattle.cells.specs.Corner.{CornerAllowed};
ghost use Rattle.laying.specs.Laying.{laying, laid_byte, laying_of};
ghost use Rattle.laying.specs.Placed.{offset_between};
ghost use Rattle.laying.specs.Lines.{start_of, under_of, line_of, row_of};
ghost use Rattle.laying.specs.Starts.{rows_met, MetRowStart};

use cells::{Corner, Size};

// Where a mask's corner lies in the other: its cell (column, row) meets (column + x, row + y).
#[derive(Clone, Copy)]
pub struct Offset {
    pub x: i32,
    pub y: i32,
}

impl Offset {
    // From where the corners of both lie on the sheet.
    pub fn between(own: Corner, other: Corner) -> Offset
        requires { CornerAllowed own × CornerAllowed other }
        ensures { result ≡ offset_between own other }
    {
        Offset {
            x: own.x - other.x,
            y: own.y - other.y,
        }
    }
}

// The first cell of ours and the first of the other's that meet, along a row or down a column.
#[derive(Clone, Copy)]
struct Start {
    own: usize,
    other: usize,
}

fn first_met(offset: i32) -> Start
    ensures { result ≡ start_of offset }
{
    if offset < 0 {
        return Start {
            own: offset.unsigned_abs() as usize,
            other: 0,
        };
    }
    Start {
        own: 0,
        other: offset as usize,
    }
}

// How many rows meet one of the other mask's, from the first that does: as many as it has from there on.
fn rows_met(y: Start, height: usize) -> usize
    ensures { result ≡ rows_met y height }
{
    height.saturating_sub(y.other)
}

// Where the row of the other mask that row 0 meets starts: below 0, if that lies before its first row.
fn first_start(offset: i32, width: usize) -> i64
    requires { width ≤ 4096 }
    ensures { result ≡ offset *ℤ pos width }
{
    (offset as i64) * (width as i64)
}

fn lay_byte(cell: u8, other: u8) -> u8
    ensures { result ≡ laid_byte cell other }
{
    (((cell as u32) * (other as u32) + 127) / 255) as u8
}

// Lays others on as many cells.
fn lay_cells(cells: &mut [u8], others: &[u8])
    requires { length cells.old ≤ length others.now }
    ensures { cells.new ≡ under_of cells.old others.now }
{
    for (i, cell) in cells.iter_mut().enumerate() {
        *cell = lay_byte(*cell, others[i]);
    }
}

// Lays others on cells from their first on, and clears the cells past the others' last.
fn lay_front(cells: &mut [u8], others: &[u8])
    ensures { cells.new ≡ under_of cells.old others.now }
{
    let n = others.len();
    if cells.len() <= n {
        lay_cells(cells, others);
        return;
    }
    lay_cells(&mut cells[..n], others);
    cells[n..].fill(0);
}

// Lays a row of the other mask on a line, from where they meet.
fn lay_line(line: &mut [u8], others: &[u8], x: Start)
    ensures { line.new ≡ line_of x line.old others.now }
{
    let own = x.own;
    let from = x.other;
    if line.len() <= own || others.len() <= from {
        line.fill(0);
        return;
    }
    line[..own].fill(0);
    lay_front(&mut line[own..], &others[from..]);
}

// Lays the other mask's row that a row meets, and that starts at start, on it, and clears a row that meets none.
fn lay_row(
    line: &mut [u8],
    other: &[u8],
    size: Size,
    start: i64,
    row: usize,
    rows: usize,
    x: Start,
    y: Start,
)
    requires size_allowed { SizeAllowed size × (cells_of size ≤ length other.now) }
    requires met_row_start { MetRowStart y size row start × (rows ≡ rows_met y size.height) }
    ensures { line.new ≡ row_of x y size other.now row line.old }
{
    if row < y.own || rows <= row - y.own {
        line.fill(0);
        return;
    }
    let from = start as usize;
    let to = from + size.width;
    lay_line(line, &other[from..to], x);
}

// Multiplies a mask by the other where they overlap, and clears it elsewhere.
pub fn lay(mask: &mut [u8], size: Size, other: &[u8], other_size: Size, offset: Offset)
    requires size_allowed { SizeAllowed size × (cells_of size ≡ length mask.old) }
    requires size_allowed_2 { SizeAllowed other_size × (cells_of other_size ≤ length other.now) }
    ensures { mask.new ≡ laying_of (laying size other_size offset) mask.old other.now }
{
    let x = first_met(offset.x);
    let y = first_met(offset.y);
    let width = size.width;
    let height = size.height;
    let other_width = other_size.width;
    let other_stride = other_width as i64;
    let rows = rows_met(y, other_size.height);
    let mut from = 0;
    let mut other_from = first_start(offset.y, other_width);
    for row in 0..height {
        let to = from + width;
        lay_row(
            &mut mask[from..to],
            other,
            other_size,
            other_from,
            row,
            rows,
            x,
            y,
        );
        from = to;
        other_from += other_stride;
    }
}
