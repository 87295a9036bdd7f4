// Square roots and hypot. Each contract gives the result outright, for every
// argument, as a definition of specs/. At f32 both take a guess by floats where an exact check holds
// it, and else whole numbers; at f64 the square root is that of the crate roots.
#![tactic(auto)]

ghost use Rattle.std.specs.Prelude.{◌≡◌, ◌*◌, ◌^◌, ◌≤◌, ◌<◌, T};
ghost use Rattle.std.specs.Float.{binary32, binary64};
ghost use Rattle.std.specs.Float.Ieee.Scale.{finite};
ghost use Rattle.roots.specs.Root.{sqrt_of};
ghost use Rattle.nearest_roots.specs.Root.{hypot_of};
ghost use Rattle.nearest_roots.specs.Guess.{Guessed, midpoint_of, Checked};

// ---- a root by a guess

// A step of Newton's towards the inverse root of v, of which half is given.
fn newton(half: f64, y: f64) -> f64 {
    1.5 * y - half * y * (y * y)
}

// A guess at the root of v: the bit pattern of an f32, or 0 for none. Nothing is claimed of its value,
// since it is checked.
fn guess(v: f64) -> u64
    ensures { Guessed result }
{
    if v > 0.0 {
        let half = 0.5 * v;
        let bits = f64::to_bits(v) % 0x8000_0000_0000_0000;
        let first = f64::from_bits(0x5fe6_eb50_c7b5_37a9 - bits / 2);
        let root = v * newton(half, newton(half, newton(half, first)));
        if root > 0.0 {
            // to the digits of an f32
            let near = f64::to_bits(root) % 0x8000_0000_0000_0000 + 0x1000_0000;
            let pattern = near / 0x2000_0000;
            if 0x1_c080_0000 < pattern && pattern < 0x2_3f80_0000 {
                return pattern - 0x1_c000_0000;
            }
        }
    }
    0
}

// The middle of two f32s next to each other, by a bit pattern with one digit more than theirs.
fn midpoint(m: u64) -> f64
    requires bound { 2 ^ 24 ≤ m }
    requires m_bound { m < 256 * 2 ^ 24 }
    ensures { result ≡ midpoint_of m }
{
    f64::from_bits((m + 0x3_8000_0000) * 0x1000_0000)
}

// An f32 whose neighbours' midpoints have v strictly between their squares, which are exact; or 0. A
// sum that was rounded to v is between these squares as well.
fn checked_root(v: f64) -> f32
    ensures { Checked v result }
{
    let p = guess(v);
    if p == 0 {
        return 0.0;
    }
    let below = midpoint(2 * p - 1);
    let above = midpoint(2 * p + 1);
    if below * below < v && v < above * above {
        return f32::from_bits(p as u32);
    }
    0.0
}

// ---- the roots

// IEEE 754's square root.
pub fn sqrt64(x: f64) -> f64
    ensures { result ≡ sqrt_of binary64 x }
{
    roots::sqrt64(x)
}

pub fn sqrt(x: f32) -> f32
    ensures { result ≡ sqrt_of binary32 x }
{
    if x > 0.0 {
        let root = checked_root(float::widen(x));
        if root > 0.0 {
            return root;
        }
    }
    roots::sqrt(x)
}

// The root of the exact sum of the squares of finite x and y, rounded once.
fn hypot_by_digits(x: f32, y: f32) -> f32
    requires t { T (finite x) }
    requires t_2 { T (finite y) }
    ensures { result ≡ hypot_of x y }
{
    let p = float::unpack32(x);
    let q = float::unpack32(y);
    square_sums::root_of_squares(p.digits, p.exponent, q.digits, q.exponent)
}

// The f32 nearest to the root of the exact sum of squares; where an argument is not finite, the f64
// root of the f64 sum, rounded to f32.
// Ruled out: the root of the rounded sum, which is another f32 in rare last bits; an infinity for an
// infinity and a NaN.
pub fn hypot(x: f32, y: f32) -> f32
    ensures { result ≡ hypot_of x y }
{
    let a = float::widen(x);
    let b = float::widen(y);
    let sum = a * a + b * b;
    let root = checked_root(sum);
    if root > 0.0 {
        return root;
    }
    if float::is_finite(x) && float::is_finite(y) {
        return hypot_by_digits(x, y);
    }
    narrowing::narrow(sqrt64(sum))
}
