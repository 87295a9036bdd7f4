// Floats and whole numbers: floor, ceil, and the casts to columns and bytes and from whole numbers.
// Each contract gives the result outright, as a definition of specs/.
#![tactic(auto)]

ghost use Rattle.std.specs.Prelude.{◌≡◌, ◌*◌, ◌^◌, ◌≤◌, ◌<◌, true};
ghost use Rattle.std.specs.Float.{binary32};
ghost use Rattle.std.specs.Float.Ieee.{round, le, to_unsigned};
ghost use Rattle.float.specs.Ops.{f1};
ghost use Rattle.whole.specs.Whole.{floor_of, ceil_of, column_of, byte_of, of_whole};

// n as a float, exactly.
pub fn from_whole(n: usize) -> f32
    requires { n ≤ 2 ^ 24 }
    ensures { result ≡ of_whole n }
{
    n as f32
}

// A number from 1 to below 2 ^ 23 without its fraction: its digits above the point.
fn whole_part(x: f32) -> u64
    requires { (le f1 x ≡ true) × (to_unsigned 64 x < 2 ^ 23) }
    ensures { result ≡ to_unsigned 64 x }
{
    let p = float::unpack32(x);
    p.digits >> (149 - p.exponent)
}

// x without its fraction as a column, held between 0 and 8,191; a NaN gives 0.
pub fn to_column(x: f32) -> usize
    ensures { result ≡ column_of x }
{
    if x >= 8192.0 {
        return 8191;
    }
    if x >= 1.0 {
        return whole_part(x) as usize;
    }
    0
}

// x without its fraction, held between 0 and 255; a NaN gives 0.
pub fn to_byte(x: f32) -> u8
    ensures { result ≡ byte_of x }
{
    let n = to_column(x);
    if n < 255 {
        return n as u8;
    }
    255
}

// The largest whole number that is no larger than x.
pub fn floor(x: f32) -> f32
    ensures { result ≡ floor_of x }
{
    x.floor()
}

// The smallest whole number that is no smaller than x.
pub fn ceil(x: f32) -> f32
    ensures { result ≡ ceil_of x }
{
    x.ceil()
}
