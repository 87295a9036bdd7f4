// A whole root by its binary digits, and its half rounded: what roots are made of.
#![tactic(auto)]

ghost use Rattle.std.specs.Prelude.{◌≡◌, ◌⊎◌, ◌^◌, ◌≤◌};
ghost use Rattle.root_digits.specs.Digits.{RootDigits, Extendable, Extended, rounded_half};

// A whole root, and what its square lacks of the number.
#[derive(Clone, Copy)]
pub struct Root {
    pub root: u64,
    pub rest: u64,
}

// The first `steps` binary digits of a's root, a pair of a's digits for each, from the highest, and
// of zeros after those 64.
pub fn root_by_digits(a: u64, steps: u64) -> Root
    requires { steps ≤ 54 }
    ensures { RootDigits a steps result.root result.rest }
{
    let mut left = a;
    let mut root: u64 = 0;
    let mut rest: u64 = 0;
    for _step in 0..steps {
        rest = rest * 4 + left / 0x4000_0000_0000_0000;
        left = left % 0x4000_0000_0000_0000 * 4;
        let trial = root * 4 + 1;
        root *= 2;
        if trial <= rest {
            rest -= trial;
            root += 1;
        }
    }
    Root { root, rest }
}

// The root of n * p * p + high * p + low, where r is that of n: one division finds as many digits as
// p has, at most one too many.
fn extend_root(r: Root, p: u64, high: u64, low: u64) -> Root
    requires { Extendable r.root r.rest p high low }
    ensures { Extended r.root r.rest p high low result.root result.rest }
{
    let twice = 2 * r.root;
    let left = r.rest * p + high;
    let digits = left / twice;
    let over = left % twice * p + low;
    let square = digits * digits;
    let root = r.root * p + digits;
    if square <= over {
        return Root {
            root,
            rest: over - square,
        };
    }
    Root {
        root: root - 1,
        rest: over + 2 * root - 1 - square,
    }
}

// The first `steps` binary digits of the root of an a that has 63 or 64, one more than a format
// keeps: 13 or 14 of them one by one, the others by a division or two.
pub fn root_digits(a: u64, steps: u64) -> Root
    requires fact { (steps ≡ 25) ⊎ (steps ≡ 54) }
    requires bound { 2 ^ 62 ≤ a }
    ensures { RootDigits a steps result.root result.rest }
{
    if steps == 25 {
        return extend_root(
            root_by_digits(a, 13),
            0x1000,
            a % 0x40_0000_0000 / 0x400_0000,
            a % 0x400_0000 / 0x4000,
        );
    }
    let fourteen = root_by_digits(a, 14);
    let half = extend_root(
        fourteen,
        0x2000,
        a % 0x10_0000_0000 / 0x80_0000,
        a % 0x80_0000 / 0x400,
    );
    extend_root(half, 0x800_0000, a % 0x400 * 0x2_0000, 0)
}

// root / 2 to the nearest whole number: below, at or above a half by root's last digit, with rest 0
// only where root is exact. Ties to even.
pub fn round_root(root: u64, rest: u64) -> u64
    ensures { result ≡ rounded_half root rest }
{
    let q = root / 2;
    if root % 2 == 0 {
        return q;
    }
    if rest == 0 {
        return q + q % 2;
    }
    q + 1
}
