// A mask as the bytes of a raw Netpbm PGM file, put into a lent buffer: document 02, change 4.
#![tactic(auto)]

ghost use Rattle.std.specs.Prelude.{◌≡◌, ◌+◌, ◌≤◌, ◌<◌, length};
ghost use Rattle.cells.specs.Cells.{SizeAllowed};
ghost use Rattle.cells.specs.Over.{over};
ghost use Rattle.pgm_writer.specs.Text.{place, decimal, header_text, HasCells, pgm_of};

use cells::Size;

// How many digits a number has.
fn digits(n: usize) -> usize
    requires { (0 < n) × (n ≤ 4096) }
    ensures { result ≡ length (decimal n) }
{
    if n < 10 {
        return 1;
    }
    if n < 100 {
        return 2;
    }
    if n < 1000 {
        return 3;
    }
    4
}

// How many bytes stand before the cells: nine, and the digits of both numbers.
pub fn header_length(size: Size) -> usize
    requires { HasCells size × SizeAllowed size }
    ensures { result ≡ length (header_text size) }
{
    9 + digits(size.width) + digits(size.height)
}

// Writes a number's digit at a unit, if it has one. Returns the place behind it.
fn put_place(file: &mut [u8], at: usize, n: usize, unit: usize) -> usize
    requires { (at < length file.old) × (0 < unit) }
    ensures value { result ≡ at + length (place unit n) }
    ensures file_after { file.new ≡ over (place unit n) at file.old }
{
    if n < unit {
        return at;
    }
    file[at] = b'0' + (n / unit % 10) as u8;
    at + 1
}

// Writes a number. Returns the place behind it.
fn put_number(file: &mut [u8], at: usize, n: usize) -> usize
    requires { at + 4 ≤ length file.old }
    ensures value { result ≡ at + length (decimal n) }
    ensures file_after { file.new ≡ over (decimal n) at file.old }
{
    let hundreds = put_place(file, at, n, 1000);
    let tens = put_place(file, hundreds, n, 100);
    let ones = put_place(file, tens, n, 10);
    put_place(file, ones, n, 1)
}

// Writes the header. Returns the place behind it.
fn put_header(file: &mut [u8], size: Size) -> usize
    requires { length (header_text size) ≤ length file.old }
    ensures value { result ≡ length (header_text size) }
    ensures file_after { file.new ≡ over (header_text size) 0 file.old }
{
    let width = cells::put_bytes(file, 0, b"P5\n");
    let blank = put_number(file, width, size.width);
    let height = cells::put_bytes(file, blank, b" ");
    let depth = put_number(file, height, size.height);
    cells::put_bytes(file, depth, b"\n255\n")
}

// Writes a file with this raster. Returns its length.
pub fn put_pgm(file: &mut [u8], size: Size, raster: &[u8]) -> usize
    requires { length (pgm_of size raster.now) ≤ length file.old }
    ensures value { result ≡ length (pgm_of size raster.now) }
    ensures file_after { file.new ≡ over (pgm_of size raster.now) 0 file.old }
{
    let at = put_header(file, size);
    cells::put_bytes(file, at, raster)
}
