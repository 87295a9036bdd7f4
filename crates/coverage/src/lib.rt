// Groups of contours folded into coverage, row by row.
#![tactic(auto)]

ghost use Rattle.std.specs.Prelude.{◌≡◌, ◌≤◌, length};
ghost use Rattle.word_list.specs.Words.{Group};
ghost use Rattle.cells.specs.Cells.{SizeAllowed};
ghost use Rattle.sweep.specs.Bytes.{add_bytes};
ghost use Rattle.ink.specs.Ink.{ink_of};
ghost use Rattle.ink.specs.Grown.{InkKept};
ghost use Rattle.edge.specs.Table.{edges_in};
ghost use Rattle.active_edges.specs.Floats.{active_in};
ghost use Rattle.coverage.specs.Drawing.{edges_row, group_row};
ghost use Rattle.coverage.specs.Scratch.{floats_needed, counters_needed, Room, Clean};
ghost use Rattle.coverage.specs.Resolving.{GroupStored, SomeGroupStored, size_of, rows_added, edges_rows, Drawable, Drawn, RowsReady};

use cells::Size;
use edge::Layout;
use ink::Stretch;

// ---- scratch

pub fn floats_needed(size: Size, points: usize) -> usize
    requires { SizeAllowed size × (points ≤ 2048) }
    ensures { result ≡ floats_needed size points }
{
    size.width + 15 * points
}

// A row's words of marks, and a head for each row.
pub fn counters_needed(size: Size) -> usize
    requires { SizeAllowed size }
    ensures { result ≡ counters_needed size }
{
    accumulation::mark_words(size.width) + size.height
}

// ---- a group

// What is kept of a row that was drawn: how many edges reach below it, and the stretch of its ink.
#[derive(Clone, Copy)]
struct RowDone {
    below: usize,
    ink: Stretch,
}

// Draws one row: the pieces of its n active edges, and the line's bytes, whose ink was `ink`.
fn draw_row(
    line: &mut [u8],
    floats: &mut [f32],
    touched: &mut [u64],
    l: Layout,
    n: usize,
    row: usize,
    height: usize,
    even_odd: bool,
    ink: Stretch,
) -> RowDone
    requires drawable { Drawable floats.old touched.old l n }
    requires line_len { (length line.old ≡ l.width) × (row ≤ 4096) × (height ≤ 4096) }
    ensures line_after { line.new ≡ add_bytes line.old (edges_row even_odd (size_of l height) row (active_in floats.old l n)) }
    ensures drawn { Drawn floats.old floats.new l n row result.below }
    ensures drawable_2 { Drawable floats.new touched.new l result.below }
    ensures ink_value { ink ≡ ink_of line.old → result.ink ≡ ink_of line.new }
{
    if n == 0 {
        return RowDone { below: 0, ink };
    }
    let width = l.width;
    let top = whole::from_whole(row);
    let bottom = whole::from_whole(row + 1);
    let below = active_edges::pieces(
        floats,
        touched,
        l,
        n,
        top,
        bottom,
        whole::from_whole(height),
    );
    let t = sweep::sweep(line, &mut floats[..width], touched, even_odd);
    RowDone {
        below,
        ink: ink::grown(line, t.from, t.to, ink),
    }
}

// Draws the rows of a group whose edge table is made, from the first on.
fn draw_rows(
    mask: &mut [u8],
    ink: &mut [u16],
    floats: &mut [f32],
    counters: &mut [u64],
    l: Layout,
    height: usize,
    even_odd: bool,
)
    requires rows_ready { RowsReady mask.old floats.old counters.old l height }
    requires ink_kept { InkKept (size_of l height) mask.old ink.old }
    ensures mask_after { mask.new ≡ edges_rows even_odd (size_of l height) (edges_in floats.old l) mask.old }
    ensures clean { Clean floats.new counters.new (size_of l height) }
    ensures ink_kept_2 { InkKept (size_of l height) mask.new ink.new }
{
    let width = l.width;
    let words = accumulation::mark_words(width);
    let end = words + height;
    let mut from = 0;
    let mut kept = 0;
    for row in 0..height {
        let n = active_edges::join(floats, &mut counters[words..end], l, kept, row);
        let to = from + width;
        let at = 2 * row;
        let old = Stretch {
            first: ink[at],
            end: ink[at + 1],
        };
        let done = draw_row(
            &mut mask[from..to],
            floats,
            &mut counters[..words],
            l,
            n,
            row,
            height,
            even_odd,
            old,
        );
        let new = done.ink;
        ink[at] = new.first;
        ink[at + 1] = new.end;
        kept = done.below;
        from = to;
    }
}

// Folds the `count` edges of one group that are stored behind the row's cells into coverage, and
// adds it to the mask, whose ink it keeps.
pub fn resolve(
    mask: &mut [u8],
    ink: &mut [u16],
    floats: &mut [f32],
    counters: &mut [u64],
    size: Size,
    points: usize,
    count: usize,
    even_odd: bool,
)
    requires room { Room mask.old floats.old counters.old size points }
    requires clean { Clean floats.old counters.old size }
    requires count_le_points { (count ≤ points) × SomeGroupStored floats.old size count even_odd }
    requires ink_kept { InkKept size mask.old ink.old }
    ensures mask_after { (g : Group) → GroupStored floats.old size count even_odd g → mask.new ≡ rows_added (group_row size g) size mask.old }
    ensures clean_2 { Clean floats.new counters.new size }
    ensures ink_kept_2 { InkKept size mask.new ink.new }
{
    let width = size.width;
    let height = size.height;
    if height == 0 {
        return;
    }
    let nexts = width + 5 * points;
    let l = Layout {
        width,
        nexts,
        active: nexts + points,
        count,
    };
    let words = accumulation::mark_words(width);
    let end = words + height;
    edge::table(floats, &mut counters[words..end], l);
    draw_rows(mask, ink, floats, counters, l, height, even_odd);
}
