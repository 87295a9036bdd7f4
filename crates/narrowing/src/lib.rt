// An f64 as the nearest f32. The contract gives the result outright, for every argument, as a
// definition of specs/.
#![tactic(auto)]

ghost use Rattle.std.specs.Prelude.{◌≡◌, ◌^◌, ◌<◌, T};
ghost use Rattle.std.specs.Float.Ieee.Nearest.{closest};
ghost use Rattle.std.specs.Float.Ieee.Scale.{finite};
ghost use Rattle.narrowing.specs.Width.{narrow_of};

// a / unit to the nearest whole number, ties to even.
fn nearest_div(a: u64, unit: u64) -> u64
    requires a_bound { a < 2 ^ 62 }
    requires unit_nonzero { 0 < unit }
    ensures { result ≡ closest a unit }
{
    let q = a / unit;
    let rest = a % unit;
    let lacks = unit - rest;
    if rest < lacks {
        return q;
    }
    if lacks < rest {
        return q + 1;
    }
    q + q % 2
}

// The f32 nearest to a finite x, ties to even.
fn narrow_finite(x: f64) -> f32
    requires { T (finite x) }
    ensures { result ≡ narrow_of x }
{
    let p = float::unpack64(x);
    let e = p.exponent;
    if 896 <= e {
        // 29 digits are dropped: the result is not subnormal
        let q = nearest_div(p.digits, 0x2000_0000);
        return float::pack32(p.negative, q, e - 896);
    }
    if 863 <= e {
        let q = nearest_div(p.digits, 1 << (925 - e));
        return float::pack32(p.negative, q, 0);
    }
    // less than half of the smallest f32
    float::pack32(p.negative, 0, 0)
}

// The f32 nearest to x, ties to even; a NaN and the infinities stay.
pub fn narrow(x: f64) -> f32
    ensures { result ≡ narrow_of x }
{
    if x.is_nan() {
        return f32::NAN;
    }
    if x == f64::INFINITY {
        return f32::INFINITY;
    }
    if x == f64::NEG_INFINITY {
        return f32::NEG_INFINITY;
    }
    narrow_finite(x)
}
