// Frames and bounds: the parts of femtovg's geometry.rs that the boxes use. Every function takes
// any floats, and its contract gives the result outright, by a definition of specs/Frame.antt.
#![tactic(auto)]

ghost use Rattle.std.specs.Prelude.{◌≡◌, [], ◌∷◌};
ghost use Rattle.geometry.specs.Frame.{identity_frame, translation_of, product_of, quotient_of, collapsed_of};
ghost use Rattle.geometry.specs.Frame.{inverse_of, transform_point_of, no_bounds, with_point_of, from_points_of};

// A point. The Rust's `transform_point` answers a pair.
#[derive(Clone, Copy, Default, PartialEq)]
pub struct Position {
    pub x: f32,
    pub y: f32,
}

// A 2 by 3 matrix, used for linear transformations of the plane.
// The fields' order is that of the first six of `struct beamnettle_box` in include/beamnettle.h. No
// contract pins it: compare/run tests it with a C program (compare/header).
#[repr(C)]
#[derive(Clone, Copy)]
pub struct Transform2D {
    pub a: f32,
    pub b: f32,
    pub c: f32,
    pub d: f32,
    pub x: f32,
    pub y: f32,
}

impl Transform2D {
    // `inverse`'s 1e-6: a determinant strictly between this and its negation counts as none.
    const MIN_DETERMINANT: f64 = 1e-6;

    // Ruled out: a scale of 0; an offset of -0.
    pub fn identity() -> Self
        ensures { result ≡ identity_frame }
    {
        Self {
            a: 1.0,
            b: 0.0,
            c: 0.0,
            d: 1.0,
            x: 0.0,
            y: 0.0,
        }
    }

    // Ruled out: x and y exchanged; the offset negated.
    pub fn translation(tx: f32, ty: f32) -> Self
        ensures { result ≡ translation_of tx ty }
    {
        Self {
            a: 1.0,
            b: 0.0,
            c: 0.0,
            d: 1.0,
            x: tx,
            y: ty,
        }
    }

    // The product takes a point through `self`, then through `other`.
    // Ruled out: the product turned round; the offset added before the two products' sum.
    pub fn mul(self, other: Self) -> Self
        ensures { result ≡ product_of self other }
    {
        Self {
            a: self.a * other.a + self.b * other.c,
            b: self.a * other.b + self.b * other.d,
            c: self.c * other.a + self.d * other.c,
            d: self.c * other.b + self.d * other.d,
            x: self.x * other.a + self.y * other.c + other.x,
            y: self.x * other.b + self.y * other.d + other.y,
        }
    }

    // The product with `other`'s inverse.
    // Ruled out: the quotient turned round; the inverse of the product.
    pub fn div(self, other: Self) -> Self
        ensures { result ≡ quotient_of self other }
    {
        self.mul(other.inverse())
    }

    // Whether a determinant counts as none.
    fn collapsed(det: f64) -> bool
        ensures { result ≡ collapsed_of det }
    {
        det > -Self::MIN_DETERMINANT && det < Self::MIN_DETERMINANT
    }

    // Reckoned in f64, each number rounded to f32 at the end; the identity where there is all but no
    // determinant.
    // Ruled out: +0 for the identity's own b and c, which are -0; the identity at a determinant of
    // exactly 0.000001.
    pub fn inverse(self) -> Self
        ensures { result ≡ inverse_of self }
    {
        let a = float::widen(self.a);
        let b = float::widen(self.b);
        let c = float::widen(self.c);
        let d = float::widen(self.d);
        let x = float::widen(self.x);
        let y = float::widen(self.y);
        let det = a * d - c * b;
        if Self::collapsed(det) {
            return Self::identity();
        }
        let invdet = 1.0 / det;
        Self {
            a: narrowing::narrow(d * invdet),
            b: narrowing::narrow(-b * invdet),
            c: narrowing::narrow(-c * invdet),
            d: narrowing::narrow(a * invdet),
            x: narrowing::narrow((c * y - d * x) * invdet),
            y: narrowing::narrow((b * x - a * y) * invdet),
        }
    }

    // Ruled out: b and c exchanged; the offset added first.
    pub fn transform_point(self, sx: f32, sy: f32) -> Position
        ensures { result ≡ transform_point_of self sx sy }
    {
        Position {
            x: sx * self.a + sy * self.c + self.x,
            y: sx * self.b + sy * self.d + self.y,
        }
    }
}

#[derive(Clone, Copy)]
pub struct Bounds {
    pub minx: f32,
    pub miny: f32,
    pub maxx: f32,
    pub maxy: f32,
}

impl Bounds {
    // The bounds of no points, the least above the greatest: where bounds begin.
    pub fn none() -> Self
        ensures { result ≡ no_bounds }
    {
        let top = float::infinity();
        Self {
            minx: top,
            miny: top,
            maxx: -top,
            maxy: -top,
        }
    }

    // The bounds with one point more.
    pub fn with_point(self, p: Position) -> Self
        ensures { result ≡ with_point_of self p }
    {
        Self {
            minx: float::min(self.minx, p.x),
            miny: float::min(self.miny, p.y),
            maxx: float::max(self.maxx, p.x),
            maxy: float::max(self.maxy, p.y),
        }
    }

    // The smallest bounds that hold four points, taken one after another.
    // Ruled out: -0 for a +0 that came first; a NaN kept where a number follows.
    pub fn from_points(p: Position, q: Position, r: Position, s: Position) -> Self
        ensures { result ≡ from_points_of (p ∷ q ∷ r ∷ s ∷ []) }
    {
        Self::none()
            .with_point(p)
            .with_point(q)
            .with_point(r)
            .with_point(s)
    }
}
