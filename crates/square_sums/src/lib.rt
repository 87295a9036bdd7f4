// The root of the sum of two squares of f32s, by its digits: exact whole numbers, rounded once.
#![tactic(auto)]

ghost use Rattle.std.specs.Prelude.{◌≡◌, ◌⊎◌, ◌+◌, ◌^◌, ◌≤◌, ◌<◌};
ghost use Rattle.square_sums.specs.Squares.{square, Digits, RootOfSquares, RootOfSum};

// The root of S, of which four times is `sum` squares of 2 ^ k of the smallest f32 and, where `more` is
// above 0, a part of one more: rounded once.
fn rounded(sum: u64, more: u64, k: u64) -> f32
    requires bound { 2 ^ 48 ≤ sum }
    requires sum_bound { sum < 2 ^ 50 }
    requires more_bound { more < 2 ^ 51 }
    requires k_bound { k < 2 ^ 9 }
    ensures { RootOfSum sum more k result }
{
    let r = root_digits::root_digits(sum * 0x4000, 25);
    float::pack32(false, root_digits::round_root(r.root, r.rest + more), k)
}

// The same where `sum` may have a digit more or, without an exponent, fewer.
fn root_of_sum(sum: u64, more: u64, e: u64) -> f32
    requires sum_bound { sum < 2 ^ 51 }
    requires more_bound { more < 2 ^ 50 }
    requires e_bound { e < 2 ^ 8 }
    requires fact { (2 ^ 48 ≤ sum) ⊎ ((e ≡ 0) × (more ≡ 0)) }
    ensures { RootOfSum sum more e result }
{
    if sum < 0x1_0000_0000_0000 {
        // subnormal, and nothing is lost
        let r = root_digits::root_by_digits(sum * 0x1000, 26);
        return float::pack32(false, root_digits::round_root(r.root, r.rest), 0);
    }
    if sum < 0x4_0000_0000_0000 {
        return rounded(sum, more, e);
    }
    // the root has another exponent than the larger square's
    rounded(sum / 4, sum % 4 + more, e + 1)
}

// The root of the squares of a * 2 ^ e and b * 2 ^ f, where e is no less than f. The second square is
// put in parts of 4 ^ e, and what that loses only says whether the root is exact. From a gap of 25 on
// all of it is lost.
fn joined(a: u64, e: u64, b: u64, f: u64) -> f32
    requires digits { Digits a e }
    requires digits_2 { Digits b f }
    requires f_le_e { f ≤ e }
    ensures { RootOfSquares (square a e + square b f) result }
{
    let two = float::smaller(2 * (e - f), 50);
    let part = 4 * b * b;
    let unit: u64 = 1 << two;
    root_of_sum(4 * a * a + part / unit, part % unit, e)
}

// The same of squares in any order.
pub fn root_of_squares(a: u64, e: u64, b: u64, f: u64) -> f32
    requires digits { Digits a e }
    requires digits_2 { Digits b f }
    ensures { RootOfSquares (square a e + square b f) result }
{
    if e < f {
        return joined(b, f, a, e);
    }
    joined(a, e, b, f)
}
