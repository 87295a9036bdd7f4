// Which columns of a mask's rows have ink, for a print head that skips blank stretches.
#![tactic(auto)]

ghost use Rattle.std.specs.Prelude.{◌≡◌, true, cond, ◌⊎◌, List, ℕ, ◌-◌, ◌≤◌, ◌<◌, eqb, length, get_or, replicate};
ghost use Rattle.cells.specs.Cells.{SizeAllowed};
ghost use Rattle.ink.specs.Ink.{ink_of, ink_after};
ghost use Rattle.ink.specs.Lent.{lent, lent_short, LentEnough};
ghost use Rattle.ink.specs.Steps.{Blanks, Passed};
ghost use Rattle.ink.specs.Grown.{Grown};

use cells::Size;

// The first column with ink and the column after the last, or 0 and 0 for a blank row.
#[derive(Clone, Copy)]
pub struct Stretch {
    pub first: u16,
    pub end: u16,
}

// Whether so many bytes are too few for a mask of this size, or so many numbers for its ink.
pub fn lent_short(size: Size, mask: usize, ink: usize) -> bool
    requires { SizeAllowed size }
    ensures { result ≡ lent_short size (record { mask = mask; ink = ink }) }
{
    mask < size.width * size.height || ink < 2 * size.height
}

// ---- the ends of a row's stretch: a scan passes blank blocks, looks closer in the block where it stops, and tells
// the last bytes one by one. That it stops where it has to is told by the bytes alone: the rest is speed.

// How many bytes are looked at together far from the stretch, and where fewer are left.
const BLOCK: usize = 64;

const SMALL_BLOCK: usize = 16;

// Whether no byte has ink. It looks at every one, so that many are taken at a time.
fn blank(bytes: &[u8]) -> bool
    ensures { result ≡ true → Blanks bytes.now 0 (length bytes.now) }
{
    let mut all = 0;
    for byte in bytes {
        all = all | *byte;
    }
    all == 0
}

// A column where a byte has ink, else none.
fn column_if(byte: u8, column: u8, none: u8) -> u8
    ensures { result ≡ cond (eqb byte 0) none column }
{
    if byte == 0 { none } else { column }
}

// The bytes of a block before its first with ink, all told without a branch.
fn first_in(block: &[u8]) -> usize
    requires { length block.now ≤ 64 }
    ensures { Passed block.now 0 result }
{
    let none = block.len() as u8;
    let mut first = none;
    for (i, byte) in block.iter().enumerate() {
        first = first.min(column_if(*byte, i as u8, none));
    }
    first as usize
}

// The bytes of a block up to its last with ink, in the same way.
fn end_in(block: &[u8]) -> usize
    requires { length block.now ≤ 64 }
    ensures { Passed block.now result (length block.now) }
{
    let mut end = 0u8;
    for (i, byte) in block.iter().enumerate() {
        end = end.max(column_if(*byte, (i as u8) + 1, 0));
    }
    end as usize
}

// Passes blank blocks from a column on: the column behind them.
fn blank_front(line: &[u8], first: usize, block: usize) -> usize
    requires { (first ≤ length line.now) × (0 < block) }
    ensures { Passed line.now first result }
{
    let n = line.len();
    let mut from = first;
    while block <= n - from {
        let to = from + block;
        if !blank(&line[from..to]) {
            return from;
        }
        from = to;
    }
    from
}

// Passes blank blocks back from a column: the first column of them.
fn blank_back(line: &[u8], end: usize, block: usize) -> usize
    requires { (end ≤ length line.now) × (0 < block) }
    ensures { Passed line.now result end }
{
    let mut to = end;
    while block <= to {
        let from = to - block;
        if !blank(&line[from..to]) {
            return to;
        }
        to = from;
    }
    to
}

// Near the first column with ink: no byte before it has any.
fn near_first(line: &[u8]) -> usize
    ensures { Passed line.now 0 result }
{
    let from = blank_front(line, 0, BLOCK);
    if line.len() - from < BLOCK {
        return blank_front(line, from, SMALL_BLOCK);
    }
    let to = from + BLOCK;
    from + first_in(&line[from..to])
}

// Near the column after the last with ink: no byte from it on has any.
fn near_end(line: &[u8]) -> usize
    ensures { Passed line.now result (length line.now) }
{
    let to = blank_back(line, line.len(), BLOCK);
    if to < BLOCK {
        return blank_back(line, to, SMALL_BLOCK);
    }
    let from = to - BLOCK;
    from + end_in(&line[from..to])
}

// The first column with ink, or the width.
fn first_ink(line: &[u8]) -> usize
    ensures passed { Passed line.now 0 result }
    ensures fact { result < length line.now → get_or line.now result 0 ≡ 0 → ⊥ }
{
    for i in near_first(line)..line.len() {
        if line[i] != 0 {
            return i;
        }
    }
    line.len()
}

// The column after the last with ink, or 0.
fn end_ink(line: &[u8]) -> usize
    ensures passed { Passed line.now result (length line.now) }
    ensures fact { 0 < result → get_or line.now (result - 1) 0 ≡ 0 → ⊥ }
{
    for i in (0..near_end(line)).rev() {
        if line[i] != 0 {
            return i + 1;
        }
    }
    0
}

// The stretch of a row.
fn ink_of(line: &[u8]) -> Stretch
    requires { length line.now ≤ 4096 }
    ensures { result ≡ ink_of line.now }
{
    let end = end_ink(line);
    if end == 0 {
        return Stretch { first: 0, end: 0 };
    }
    let first = first_ink(line);
    Stretch {
        first: first as u16,
        end: end as u16,
    }
}

// Scans every row of a mask into two numbers a row.
pub fn scan(mask: &[u8], size: Size, ink: &mut [u16])
    requires { SizeAllowed size × LentEnough size (lent mask.now ink.old) }
    ensures { ink.new ≡ ink_after size mask.now ink.old }
{
    let width = size.width;
    let height = size.height;
    for row in 0..height {
        let from = row * width;
        let s = ink_of(&mask[from..from + width]);
        ink[2 * row] = s.first;
        ink[2 * row + 1] = s.end;
    }
}

// ---- numbers that are kept while a mask is drawn

// The stretch of a row that had the stretch `old` before bytes were added from `from` up to `to`:
// only those are looked at.
pub fn grown(line: &[u8], from: usize, to: usize, old: Stretch) -> Stretch
    requires { (length line.now ≤ 4096) × (to ≤ length line.now) }
    ensures { (before : List ℕ) → old ≡ ink_of before → Grown before line.now from to → result ≡ ink_of line.now }
{
    if to <= from {
        return old;
    }
    let part = ink_of(&line[from..to]);
    if part.end == 0 {
        return old;
    }
    let first = part.first + (from as u16);
    let behind = part.end + (from as u16);
    if old.end == 0 {
        return Stretch { first, end: behind };
    }
    Stretch {
        first: first.min(old.first),
        end: behind.max(old.end),
    }
}
