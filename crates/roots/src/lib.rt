// Square roots and hypot, by whole numbers. Each contract gives the result outright, for every argument, as a
// definition of specs/.
#![tactic(auto)]

ghost use Rattle.std.specs.Prelude.{◌≡◌, ◌⊎◌, ◌^◌, ◌≤◌, ◌<◌, T};
ghost use Rattle.std.specs.Float.{binary32, binary64};
ghost use Rattle.std.specs.Float.Ieee.Positive.{positive};
ghost use Rattle.root_digits.specs.Digits.{rounded_half};
ghost use Rattle.roots.specs.Root.{sqrt_of, hypot_of};
ghost use Rattle.roots.specs.Digits.{AlignedBy, RootParts};

use float::Parts;
use root_digits::Root;

#[derive(Clone, Copy)]
struct Aligned {
    a: u64,
    shift: u64,
}

// d moved up as far as 64 digits allow with e + shift even.
fn align(d: u64, e: u64) -> Aligned
    requires d_nonzero { 0 < d }
    requires d_bound { d < 2 ^ 60 }
    requires e_bound { e < 2 ^ 12 }
    ensures { AlignedBy d e result.a result.shift }
{
    let zeros = u64::leading_zeros(d) as u64;
    let shift = zeros - (e + zeros) % 2;
    Aligned {
        a: d << shift,
        shift,
    }
}

// Half of a root to the nearest whole number, ties to even.
fn rounded(r: Root) -> u64
    ensures { result ≡ rounded_half r.root r.rest }
{
    root_digits::round_root(r.root, r.rest)
}

// The root of d * 2 ^ e of a format's smallest values, to the `keep` digits of the format. The bias
// is low + 64 - 2 * keep where the smallest value is 2 ^ -low: e in steps of a root's unit.
fn root_parts(d: u64, e: u64, keep: u64, bias: u64) -> Parts
    requires d_nonzero { 0 < d }
    requires d_bound { d < 2 ^ keep }
    requires fact { (keep ≡ 24) ⊎ (keep ≡ 53) }
    requires e_bound { e < 2 ^ 11 }
    requires le_bias { 64 ≤ bias }
    requires bias_bound { bias < 2 ^ 11 }
    ensures { RootParts d e keep bias result.digits result.exponent }
{
    let up = align(d, e + bias);
    let r = root_digits::root_digits(up.a, keep + 1);
    Parts {
        negative: false,
        digits: rounded(r),
        exponent: (e + bias - up.shift) / 2,
    }
}

// The root of a number above 0, rounded once.
fn root32(x: f32) -> f32
    requires { T (positive x) }
    ensures { result ≡ sqrt_of binary32 x }
{
    let p = float::unpack32(x);
    let r = root_parts(p.digits, p.exponent, 24, 165);
    float::pack32(false, r.digits, r.exponent)
}

fn root64(x: f64) -> f64
    requires { T (positive x) }
    ensures { result ≡ sqrt_of binary64 x }
{
    let p = float::unpack64(x);
    let r = root_parts(p.digits, p.exponent, 53, 1032);
    float::pack64(false, r.digits, r.exponent)
}

// IEEE 754's square root.
pub fn sqrt64(x: f64) -> f64
    ensures { result ≡ sqrt_of binary64 x }
{
    if x > 0.0 {
        if x == f64::INFINITY {
            return x;
        }
        return root64(x);
    }
    if x == 0.0 {
        return x;
    }
    f64::NAN
}

pub fn sqrt(x: f32) -> f32
    ensures { result ≡ sqrt_of binary32 x }
{
    if x > 0.0 {
        if x == f32::INFINITY {
            return x;
        }
        return root32(x);
    }
    if x == 0.0 {
        return x;
    }
    f32::NAN
}

// The root of the sum of squares, by f64 and rounded to f32 at the end.
pub fn hypot(x: f32, y: f32) -> f32
    ensures { result ≡ hypot_of x y }
{
    let a = float::widen(x);
    let b = float::widen(y);
    narrowing::narrow(sqrt64(a * a + b * b))
}
