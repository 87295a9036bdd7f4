// The sweep of a row: its cells are summed to windings, each cell's coverage is added to the line,
// and the row is cleared.
#![tactic(auto)]

ghost use Rattle.std.specs.Prelude.{◌≡◌, map, ◌+◌, ◌-◌, ◌≤◌, ◌<◌, length, replicate, set};
ghost use Rattle.std.specs.Float.{binary32};
ghost use Rattle.std.specs.Float.Ieee.{rem};
ghost use Rattle.float.specs.Ops.{f0, f2};
ghost use Rattle.float.specs.Simple.{abs_of};
ghost use Rattle.sweep.specs.Bytes.{share_of, covered_of, bytes_of, add_bytes};
ghost use Rattle.accumulation.specs.Marks.{Ready};
ghost use Rattle.sweep.specs.Sweeping.{plus_of, filled_of, Blank, Reached, Moved, MarkWord, WordDone, WordsDone, SameOutside};

// A winding's size modulo 2, as `%` gives it, by whole numbers of an f32's smallest values, of which
// 2.0 is 2 ^ 150: what is left of the digits, times 2.0 ^ (exponent - 149), is exact.
fn modulo_two(winding: f32) -> f32
    ensures { result ≡ rem binary32 (abs_of winding) f2 }
{
    if !float::is_finite(winding) {
        return f32::NAN;
    }
    let parts = float::unpack32(winding);
    if parts.exponent >= 150 {
        return 0.0;
    }
    if parts.exponent < 126 {
        return float::abs(winding);
    }
    let unit: u64 = 1 << (150 - parts.exponent);
    let left = (parts.digits % unit) as usize;
    whole::from_whole(left) * float::pack32(false, 0x80_0000, parts.exponent - 23)
}

// The share of a cell at a winding, by the rule.
fn share(even_odd: bool, winding: f32) -> f32
    ensures { result ≡ share_of even_odd winding }
{
    if even_odd {
        let folded = modulo_two(winding);
        if folded > 1.0 { 2.0 - folded } else { folded }
    } else {
        let size = float::abs(winding);
        float::min(size, 1.0)
    }
}

// The coverage of a winding.
pub fn covered(even_odd: bool, winding: f32) -> u8
    ensures { result ≡ covered_of even_odd winding }
{
    whole::to_byte(share(even_odd, winding) * 255.0 + 0.5)
}

// ---- bytes of a line

// Adds a coverage to every byte.
fn fill(line: &mut [u8], by: u8)
    ensures { line.new ≡ map (plus_of by) line.old }
{
    if by == 0 {
        return;
    }
    if by == 255 {
        line.fill(255);
        return;
    }
    for byte in line.iter_mut() {
        *byte = byte.saturating_add(by);
    }
}

// Adds a coverage to the bytes from `from` up to `to`.
fn fill_run(line: &mut [u8], from: usize, to: usize, by: u8)
    requires { to ≤ length line.old }
    ensures { line.new ≡ filled_of from to by line.old }
{
    if from < to {
        fill(&mut line[from..to], by);
    }
}

// ---- runs of a row

// A run of cells that no edge touches: where it starts, its winding and its coverage.
#[derive(Clone, Copy)]
pub struct Run {
    pub from: usize,
    pub winding: f32,
    pub coverage: u8,
}

// Adds a run up to a touched cell, and that cell, which it clears. Returns the run behind the cell.
fn sweep_cell(line: &mut [u8], cells: &mut [f32], run: Run, cell: usize, even_odd: bool) -> Run
    requires reached { Reached even_odd line.old cells.old run }
    requires from_le_cell { (run.from ≤ cell) × (cell < length cells.old) × Blank cells.old run.from cell }
    ensures moved { Moved even_odd line.old cells.old run line.new cells.new result }
    ensures from_value { (result.from ≡ cell + 1) × (cells.new ≡ set cells.old cell f0) }
{
    fill_run(line, run.from, cell, run.coverage);
    let winding = run.winding + cells[cell];
    cells[cell] = 0.0;
    let coverage = covered(even_odd, winding);
    line[cell] = line[cell].saturating_add(coverage);
    Run {
        from: cell + 1,
        winding,
        coverage,
    }
}

// Adds the cells of a word of marks, from `base` on. Returns the run behind the last.
fn sweep_word(
    line: &mut [u8],
    cells: &mut [f32],
    first: Run,
    base: usize,
    word: u64,
    even_odd: bool,
) -> Run
    requires reached { Reached even_odd line.old cells.old first }
    requires mark_word { MarkWord cells.old first base word }
    requires base_bound { base ≤ 4096 }
    ensures moved { Moved even_odd line.old cells.old first line.new cells.new result }
    ensures word_done { WordDone cells.old cells.new first result base }
{
    let mut run = first;
    let mut bits = word;
    while bits != 0 {
        let cell = base + (u64::trailing_zeros(bits) as usize);
        if cells.len() <= cell {
            return run;
        }
        run = sweep_cell(line, cells, run, cell, even_odd);
        bits = bits & (bits - 1);
    }
    run
}

// Adds the touched cells, and clears them and their marks. Returns the run behind the last.
fn sweep_words(line: &mut [u8], cells: &mut [f32], touched: &mut [u64], even_odd: bool) -> Run
    requires ready { Ready cells.old touched.old }
    requires line_len { length line.old ≡ length cells.old }
    ensures moved { Moved even_odd line.old cells.old (record { from = 0; winding = f0; coverage = 0 }) line.new cells.new result }
    ensures words_done { WordsDone cells.new touched.new }
{
    let mut run = Run {
        from: 0,
        winding: 0.0,
        coverage: 0,
    };
    let mut words = touched[0];
    while words != 0 {
        let at = (u64::trailing_zeros(words) as usize) + 1;
        if touched.len() <= at {
            return run;
        }
        run = sweep_word(line, cells, run, (at - 1) * 64, touched[at], even_odd);
        touched[at] = 0;
        words = words & (words - 1);
    }
    run
}

// The columns that a sweep may have changed: from one on up to another, or none where they do not rise.
#[derive(Clone, Copy)]
pub struct Touched {
    pub from: usize,
    pub to: usize,
}

// Sums a row, adds each cell's coverage to the line, and clears the row and its marks. Returns
// which columns it may have changed.
pub fn sweep(line: &mut [u8], cells: &mut [f32], touched: &mut [u64], even_odd: bool) -> Touched
    requires ready { Ready cells.old touched.old }
    requires line_len { length line.old ≡ length cells.old }
    ensures line_after { line.new ≡ add_bytes line.old (bytes_of even_odd f0 cells.old) }
    ensures cells_after { cells.new ≡ replicate (length cells.old) f0 }
    ensures touched_after { touched.new ≡ replicate (length touched.old) 0 }
    ensures same_outside { SameOutside line.old line.new result.from result.to }
{
    let from = (u64::trailing_zeros(touched[0]) as usize) * 64;
    let run = sweep_words(line, cells, touched, even_odd);
    touched[0] = 0;
    fill_run(line, run.from, line.len(), run.coverage);
    if run.coverage == 0 {
        return Touched { from, to: run.from };
    }
    Touched {
        from,
        to: line.len(),
    }
}
