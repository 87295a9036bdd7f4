// A mask's cells: its size, its corner on the sheet, and a lent buffer written.
#![tactic(auto)]

ghost use Rattle.std.specs.Prelude.{◌≡◌, ◌+◌, ◌≤◌, length};
ghost use Rattle.cells.specs.Cells.{too_large};
ghost use Rattle.cells.specs.Corner.{corner_number_out, corner_out};
ghost use Rattle.cells.specs.Over.{over};

// A mask's size in cells. Its bytes are lent beside it, one a cell, rows first.
#[derive(Clone, Copy)]
pub struct Size {
    pub width: usize,
    pub height: usize,
}

impl Size {
    // The most cells that a mask may have across or down.
    pub const MOST_CELLS: usize = 4096;

    pub fn is_too_large(self) -> bool
        ensures { result ≡ too_large self }
    {
        Size::MOST_CELLS < self.width || Size::MOST_CELLS < self.height
    }
}

// Where a mask's corner lies on the sheet, in cells: its cell (column, row) lies at (x + column, y + row).
#[derive(Clone, Copy)]
pub struct Corner {
    pub x: i32,
    pub y: i32,
}

impl Corner {
    // The largest size of a corner's number, where masks are laid on by corners.
    pub const LARGEST_NUMBER: i32 = 1048576;

    #[tactic(auto, unfolding(crate::specs::Corner::corner_number_out))]
    fn is_beyond(n: i32) -> bool
        ensures { result ≡ corner_number_out n }
    {
        n < -Corner::LARGEST_NUMBER || Corner::LARGEST_NUMBER < n
    }

    pub fn is_out_of_range(self) -> bool
        ensures { result ≡ corner_out self }
    {
        Corner::is_beyond(self.x) || Corner::is_beyond(self.y)
    }
}

// A mask's record: its size, and beside it its corner.
#[derive(Clone, Copy)]
pub struct MaskRecord {
    pub size: Size,
    pub corner: Corner,
}

// ---- a lent buffer, written

// Writes bytes from a place on. Returns the place behind them.
pub fn put_bytes(to: &mut [u8], at: usize, bytes: &[u8]) -> usize
    requires { at + length bytes.now ≤ length to.old }
    ensures value { result ≡ at + length bytes.now }
    ensures to_after { to.new ≡ over bytes.now at to.old }
{
    for (i, byte) in bytes.iter().enumerate() {
        to[at + i] = *byte;
    }
    at + bytes.len()
}
