// A row's accumulation buffer: the area that each of its cells holds, the marks of the cells that may
// hold any, and what a piece of an edge within the row adds. Crate row clips the pieces, crate sweep
// makes bytes of the row. The public functions are for the crates above: none is a call of the
// kiosk's.
#![tactic(auto)]

ghost use Rattle.std.specs.Prelude.{◌≡◌, map, ◌+◌, ◌-◌, ◌*◌, ◌/◌, ◌%◌, ◌≤◌, ◌<◌, length, Float};
ghost use Rattle.float.specs.Ops.{◌⊕◌};
ghost use Rattle.accumulation.specs.Area.{add_of, evenly_of, single_of, between_of, across_of};
ghost use Rattle.accumulation.specs.Marks.{mark_words, Ready, Marked};

// ---- marks

// How many words of marks a row of `width` cells has.
pub fn mark_words(width: usize) -> usize
    requires { width ≤ 4096 }
    ensures { result ≡ mark_words width }
{
    (width + 63) / 64 + 1
}

// Marks n cells from `cell` on, whose bits stand in one word.
fn mark(touched: &mut [u64], cell: usize, n: usize)
    requires n_nonzero { (0 < n) × (cell % 64 + n ≤ 64) }
    requires cell_bound { (cell / 64 < 64) × (cell / 64 + 1 < length touched.old) }
    ensures { Marked touched.old touched.new cell (cell + n) }
{
    let word = cell / 64;
    touched[0] = touched[0] | (1u64 << (word as u64));
    touched[word + 1] = touched[word + 1]
        | ((0xffff_ffff_ffff_ffffu64 >> ((64 - n) as u64)) << ((cell % 64) as u64));
}

// Marks the cells from `from` up to `to`, a word at a time.
fn mark_run(touched: &mut [u64], from: usize, to: usize)
    requires { (to ≤ 4096) × (to + 64 ≤ length touched.old * 64) }
    ensures { Marked touched.old touched.new from to }
{
    let mut at = from;
    while at < to {
        let end = to.min((at / 64 + 1) * 64);
        mark(touched, at, end - at);
        at = end;
    }
}

// ---- what an edge's piece adds

// `area` more in a cell of the row.
pub fn add(cells: &mut [f32], touched: &mut [u64], cell: usize, area: f32)
    requires { Ready cells.old touched.old }
    ensures cells_after { cells.new ≡ add_of cells.old cell area }
    ensures ready { Ready cells.new touched.new }
{
    if cell < cells.len() && area != 0.0 {
        cells[cell] = cells[cell] + area;
        mark(touched, cell, 1);
    }
}

// `area` more in every cell.
fn raise(cells: &mut [f32], area: f32)
    ensures { cells.new ≡ map (λ (x : Float). x ⊕ area) cells.old }
{
    for cell in cells.iter_mut() {
        *cell = *cell + area;
    }
}

// The same area in the cells from `from` up to `to`.
fn evenly(cells: &mut [f32], touched: &mut [u64], from: usize, to: usize, area: f32)
    requires { Ready cells.old touched.old }
    ensures cells_after { cells.new ≡ evenly_of (to - from) cells.old from area }
    ensures ready { Ready cells.new touched.new }
{
    let end = to.min(cells.len());
    if from < end {
        if area != 0.0 {
            raise(&mut cells[from..end], area);
            mark_run(touched, from, end);
        }
    }
}

// A piece inside one cell: what is right of its middle is the cell's.
pub fn single(cells: &mut [f32], touched: &mut [u64], cell: usize, middle: f32, area: f32)
    requires ready { Ready cells.old touched.old }
    requires cell_bound { cell < 8192 }
    ensures cells_after { cells.new ≡ single_of cells.old cell middle area }
    ensures ready_2 { Ready cells.new touched.new }
{
    add(cells, touched, cell, area * (1.0 - middle));
    add(cells, touched, cell + 1, area * middle);
}

// What a piece across cells adds between its first cell and its last: `enters` is the width that
// it has in the first.
fn between(
    cells: &mut [f32],
    touched: &mut [u64],
    cell: usize,
    last: usize,
    area: f32,
    per_cell: f32,
    enters: f32,
    head: f32,
    tail: f32,
)
    requires ready { Ready cells.old touched.old }
    requires cell_bound { (cell + 1 < last) × (last ≤ 8192) }
    ensures cells_after { cells.new ≡ between_of cells.old cell last area per_cell enters head tail }
    ensures ready_2 { Ready cells.new touched.new }
{
    if last == cell + 2 {
        add(cells, touched, cell + 1, area * (1.0 - head - tail));
    } else {
        let second = per_cell * (enters + 0.5);
        add(cells, touched, cell + 1, area * (second - head));
        evenly(cells, touched, cell + 2, last - 1, area * per_cell);
        let before_last = second + whole::from_whole(last - cell - 3) * per_cell;
        add(cells, touched, last - 1, area * (1.0 - before_last - tail));
    }
}

// A piece across cells: a triangle in the first and the last, a trapezoid in between.
pub fn across(
    cells: &mut [f32],
    touched: &mut [u64],
    lo: f32,
    hi: f32,
    cell: usize,
    last: usize,
    area: f32,
)
    requires ready { Ready cells.old touched.old }
    requires cell_bound { (cell + 1 < last) × (last ≤ 8192) }
    ensures cells_after { cells.new ≡ across_of cells.old lo hi cell last area }
    ensures ready_2 { Ready cells.new touched.new }
{
    let per_cell = 1.0 / (hi - lo);
    let enters = 1.0 - (lo - whole::from_whole(cell));
    let leaves = hi - (whole::from_whole(last) - 1.0);
    let head = 0.5 * per_cell * enters * enters;
    let tail = 0.5 * per_cell * leaves * leaves;
    add(cells, touched, cell, area * head);
    between(
        cells, touched, cell, last, area, per_cell, enters, head, tail,
    );
    add(cells, touched, last, area * tail);
}
