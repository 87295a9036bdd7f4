// The header of a raw Netpbm PGM file, read: document 02, change 4.
#![tactic(auto)]

ghost use Rattle.std.specs.Prelude.{◌≡◌, ℕ, Bool, ◌≤◌, length, take, drop};
ghost use Rattle.pgm_reader.specs.Reading.{is_space, is_digit, leading, value_of};
ghost use Rattle.pgm_reader.specs.Reading.{read_field, read_positive, read_depth, read_fields, read_header};
ghost use Rattle.pgm_reader.specs.Steps.{Tells, field_of, header_of};

use cells::Size;

// The most digits that a number may have, leading zeros counted.
const MOST_DIGITS: usize = 9;

// A number of the header and the place behind it.
#[derive(Clone, Copy)]
struct Field {
    number: usize,
    at: usize,
}

// What a header says, size and depth, and the place of the raster behind it.
#[derive(Clone, Copy)]
pub struct Header {
    pub size: Size,
    pub depth: usize,
    pub at: usize,
}

#[tactic(auto, unfolding(crate::specs::Reading::is_space))]
fn is_space(byte: u8) -> bool
    ensures { result ≡ is_space byte }
{
    byte == b' ' || byte == b'\t' || byte == b'\r' || byte == b'\n'
}

#[tactic(auto, unfolding(crate::specs::Reading::is_digit))]
fn is_digit(byte: u8) -> bool
    ensures { result ≡ is_digit byte }
{
    b'0' <= byte && byte <= b'9'
}

// How many bytes that a test takes stand at a place.
fn run_at<F: Fn(u8) -> bool>(file: &[u8], from: usize, test: F) -> usize
    requires from_in_bounds { from ≤ length file.now }
    requires callable { F.IsAlwaysCallable test }
    ensures { (kind : ℕ → Bool) → Tells (F.post test) kind → result ≡ leading kind (drop from file.now) }
{
    for at in from..file.len() {
        if !test(file[at]) {
            return at - from;
        }
    }
    file.len() - from
}

// The number that n digits at a place spell.
fn value_at(file: &[u8], from: usize, n: usize) -> usize
    requires { (from ≤ length file.now) × (n ≤ 9) × (n ≤ leading is_digit (drop from file.now)) }
    ensures { result ≡ value_of 0 (take n (drop from file.now)) }
{
    let mut value = 0;
    for i in 0..n {
        value = value * 10 + (file[from + i] - b'0') as usize;
    }
    value
}

// The whitespace and the number at a place.
fn field_at(file: &[u8], from: usize) -> Option<Field>
    requires { from ≤ length file.now }
    ensures { result ≡ field_of (length file.now) (read_field (drop from file.now)) }
{
    let spaces = run_at(file, from, is_space);
    if spaces == 0 {
        return None;
    }
    let first = from + spaces;
    let digits = run_at(file, first, is_digit);
    if digits == 0 || MOST_DIGITS < digits {
        return None;
    }
    Some(Field {
        number: value_at(file, first, digits),
        at: first + digits,
    })
}

// The same of a width or a height, which is not 0.
fn positive_at(file: &[u8], from: usize) -> Option<Field>
    requires { from ≤ length file.now }
    ensures { result ≡ field_of (length file.now) (read_positive (drop from file.now)) }
{
    let field = field_at(file, from)?;
    if field.number == 0 {
        return None;
    }
    Some(field)
}

// The depth and the one whitespace byte behind it.
fn depth_at(file: &[u8], size: Size, from: usize) -> Option<Header>
    requires { from ≤ length file.now }
    ensures { result ≡ header_of (length file.now) (read_depth size (drop from file.now)) }
{
    let depth = field_at(file, from)?;
    if depth.at < file.len() && is_space(file[depth.at]) {
        Some(Header {
            size,
            depth: depth.number,
            at: depth.at + 1,
        })
    } else {
        None
    }
}

// The width, the height and all that a header has behind them.
fn fields_at(file: &[u8], from: usize) -> Option<Header>
    requires { from ≤ length file.now }
    ensures { result ≡ header_of (length file.now) (read_fields (drop from file.now)) }
{
    let width = positive_at(file, from)?;
    let height = positive_at(file, width.at)?;
    let size = Size {
        width: width.number,
        height: height.number,
    };
    depth_at(file, size, height.at)
}

// The header of a file.
pub fn read_header(file: &[u8]) -> Option<Header>
    ensures { result ≡ header_of (length file.now) (read_header file.now) }
{
    if file.len() < 2 || file[0] != b'P' || file[1] != b'5' {
        return None;
    }
    fields_at(file, 2)
}
