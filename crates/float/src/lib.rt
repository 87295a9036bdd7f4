// Float helpers. Each contract gives the result outright, for every
// argument, as a definition of specs/ over the logic's account of IEEE 754 (Rattle.std.specs.Float.Ieee).
#![tactic(auto)]

ghost use Rattle.std.specs.Prelude.{◌≡◌, ◌^◌, ◌<◌, ◌≤◌, min, false, T, ◌⊎◌};
ghost use Rattle.std.specs.Float.{inf, binary32, binary64};
ghost use Rattle.std.specs.Float.Ieee.{units};
ghost use Rattle.std.specs.Float.Ieee.Scale.{finite};
ghost use Rattle.float.specs.Simple.{abs_of, min_of, max_of, signum_of};
ghost use Rattle.float.specs.Arctan.{ratio_of, eighth_of, steep_of, behind_of, under_of, atan2_of};
ghost use Rattle.float.specs.Parts.{Fields, Unpacked, pattern_of};

pub fn infinity() -> f32
    ensures { result ≡ inf false }
{
    f32::INFINITY
}

// The size of x. A zero comes back as +0.
pub fn abs(x: f32) -> f32
    ensures { result ≡ abs_of x }
{
    x.abs()
}

// x, unless y is strictly larger or x is a NaN.
#[tactic(auto, unfolding(crate::specs::Simple::max_of))]
pub fn max(x: f32, y: f32) -> f32
    ensures { result ≡ max_of x y }
{
    if x.is_nan() || x < y {
        return y;
    }
    x
}

// x, unless y is strictly smaller or x is a NaN.
#[tactic(auto, unfolding(crate::specs::Simple::min_of))]
pub fn min(x: f32, y: f32) -> f32
    ensures { result ≡ min_of x y }
{
    if x.is_nan() || y < x {
        return y;
    }
    x
}

// 1 or -1 by x's sign bit; a NaN stays a NaN.
pub fn signum(x: f32) -> f32
    ensures { result ≡ signum_of x }
{
    if x.is_nan() {
        return x;
    }
    if x.is_sign_negative() { -1.0 } else { 1.0 }
}

// Whether x is neither a NaN nor an infinity.
pub fn is_finite(x: f32) -> bool
    ensures { result ≡ finite x }
{
    x.is_finite()
}

// x at the wider format, which holds every f32. A NaN stays a NaN.
pub fn widen(x: f32) -> f64
    ensures { result ≡ x }
{
    std::num::f32_to_f64_with_nan(x)
}

// ---- a float taken apart and put together

// A finite float: digits * 2 ^ exponent of its format's smallest values.
#[derive(Clone, Copy)]
pub struct Parts {
    pub negative: bool,
    pub digits: u64,
    pub exponent: u64,
}

// A bit pattern taken apart, by the weights of the format's sign and of its exponent's field.
fn split_bits(bits: u64, sign: u64, hidden: u64) -> Parts
    requires sign_nonzero { 0 < sign }
    requires hidden_nonzero { 0 < hidden }
    requires hidden_bound { hidden ≤ 2 ^ 62 }
    ensures { Fields bits sign hidden result.negative result.digits result.exponent }
{
    let field = bits % sign / hidden;
    let digits = bits % hidden;
    if field == 0 {
        return Parts {
            negative: bits >= sign,
            digits,
            exponent: 0,
        };
    }
    Parts {
        negative: bits >= sign,
        digits: digits + hidden,
        exponent: field - 1,
    }
}

pub fn unpack32(x: f32) -> Parts
    requires { T (finite x) }
    ensures { Unpacked binary32 x result.negative result.digits result.exponent }
{
    split_bits(f32::to_bits(x) as u64, 0x8000_0000, 0x80_0000)
}

pub fn unpack64(x: f64) -> Parts
    requires { T (finite x) }
    ensures { Unpacked binary64 x result.negative result.digits result.exponent }
{
    split_bits(f64::to_bits(x), 0x8000_0000_0000_0000, 0x10_0000_0000_0000)
}

pub fn smaller(a: u64, b: u64) -> u64
    ensures { result ≡ min a b }
{
    a.min(b)
}

// The bit pattern with `size` below the sign, and an infinity's from `infinite` on.
fn join_bits(negative: bool, size: u64, infinite: u64, sign: u64) -> u64
    requires infinite_lt_sign { infinite < sign }
    requires sign_bound { sign ≤ 2 ^ 63 }
    ensures { result ≡ pattern_of negative size infinite sign }
{
    let held = smaller(size, infinite);
    if negative {
        return sign + held;
    }
    held
}

// q * 2 ^ k of the smallest values of an f32, or an infinity where that is too large.
pub fn pack32(negative: bool, q: u64, k: u64) -> f32
    requires q_bound { q ≤ 2 ^ 24 }
    requires k_bound { k < 2 ^ 12 }
    requires fact { (k ≡ 0) ⊎ (2 ^ 23 ≤ q) }
    ensures { result ≡ units binary32 negative q k }
{
    let bits = join_bits(negative, k * 0x80_0000 + q, 0x7f80_0000, 0x8000_0000);
    f32::from_bits(bits as u32)
}

// The same for an f64.
pub fn pack64(negative: bool, q: u64, k: u64) -> f64
    requires q_bound { q ≤ 2 ^ 53 }
    requires k_bound { k < 2 ^ 11 }
    requires fact { (k ≡ 0) ⊎ (2 ^ 52 ≤ q) }
    ensures { result ≡ units binary64 negative q k }
{
    let bits = join_bits(
        negative,
        k * 0x10_0000_0000_0000 + q,
        0x7ff0_0000_0000_0000,
        0x8000_0000_0000_0000,
    );
    f64::from_bits(bits)
}

// ---- the arctangent of y over x: document 02's stand-in

// The sizes of the powers of a ratio in its arctangent, and a quarter and half a turn.
const POWER_7: f32 = 0.0464964749;

const POWER_5: f32 = 0.15931422;

const POWER_3: f32 = 0.327622764;

const QUARTER_TURN: f32 = 1.57079637;

const HALF_TURN: f32 = 3.14159274;

// The smaller of two sizes by the larger; 0 where both are 0.
fn ratio(ax: f32, ay: f32) -> f32
    ensures { result ≡ ratio_of ax ay }
{
    if ax == 0.0 && ay == 0.0 {
        return 0.0;
    }
    if ax < ay {
        return ax / ay;
    }
    ay / ax
}

// The arctangent of a ratio.
fn eighth(a: f32) -> f32
    ensures { result ≡ eighth_of a }
{
    let s = a * a;
    ((-POWER_7 * s + POWER_5) * s - POWER_3) * s * a + a
}

// Where y is the larger in size.
fn steep(ax: f32, ay: f32, r: f32) -> f32
    ensures { result ≡ steep_of ax ay r }
{
    if ax < ay {
        return QUARTER_TURN - r;
    }
    r
}

// Where x is below 0.
fn behind(x: f32, r: f32) -> f32
    ensures { result ≡ behind_of x r }
{
    if x < 0.0 {
        return HALF_TURN - r;
    }
    r
}

// Where y is below 0.
fn under(y: f32, r: f32) -> f32
    ensures { result ≡ under_of y r }
{
    if y < 0.0 {
        return -r;
    }
    r
}

// Ruled out: sizes that are equal taken for a larger y; -3.14159274 for a y of -0, which is not below 0.
pub fn atan2(y: f32, x: f32) -> f32
    ensures { result ≡ atan2_of y x }
{
    let ax = abs(x);
    let ay = abs(y);
    under(y, behind(x, steep(ax, ay, eighth(ratio(ax, ay)))))
}
