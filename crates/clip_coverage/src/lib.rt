// A box as a draw takes it: `ClipCoverage` of femtovg's clip/shape.rs, its distance and what it
// contains. Crate covering makes one out of a box.
//
// A call refuses as document 01 says and else answers what the Rust does. What it rests on ends in
// `_unchecked` and takes any floats. Each contract gives the answer outright, by a definition of specs/.
#![tactic(auto)]

ghost use Rattle.std.specs.Prelude.{◌≡◌};
ghost use Rattle.clip_coverage.specs.Distance.{framed_of, side_of, corner_of, round_of, off_corner_of, lean_of, corner_distance_of};
ghost use Rattle.clip_coverage.specs.Distance.{edge_distance_of, locate_of, distance_of, holds_point_of, contains_of};
ghost use Rattle.clip_coverage.specs.Calls.{distance_call, contains_call};

use fault::Fault;
use geometry::Position;
use shape::RoundedBox;

// A box as a draw takes it: the map from device pixels to the box's frame, scaled so that one unit
// is one fringe width across each side, and the box in those units.
#[derive(Clone, Copy)]
pub struct ClipCoverage {
    // rows of the linear part
    pub la: f32,
    pub lb: f32,
    pub lc: f32,
    pub ld: f32,
    // offset
    pub ox: f32,
    pub oy: f32,
    // half extents
    pub ex: f32,
    pub ey: f32,
    // radii
    pub rx: f32,
    pub ry: f32,
    // how far outside its round corners the outline strays that the box was fitted to
    pub strays: f32,
}

// The Rust's (f32, bool) of `locate`.
#[derive(Clone, Copy)]
pub struct Located {
    pub distance: f32,
    // whether the point lies off a round corner, the ends of the arc with it
    pub round: bool,
}

impl ClipCoverage {
    // How far, in fringe widths, a box may stray out of another and still lie inside it, and a touch may
    // fall past a box and still be held by it.
    pub const CONTAINMENT_SLACK: f32 = 0.5;

    // How far, in fringe widths, a draw may reach past a clip's edge and still be inside it: 1 / 64.
    pub const DRAW_SLACK: f32 = 0.015625;

    // How close to parallel a frame's axes may come, as the squared sine of the angle between them.
    pub const MIN_AXIS_SPREAD: f32 = 1e-4;

    // The half extent, in fringe widths, under which a box has no coverage.
    pub const MIN_HALF_EXTENT: f32 = 0.5;

    // The corner radius, in fringe widths, under which a corner is taken as square.
    pub const SQUARE_CORNER_BELOW: f32 = 0.5;

    // How far past a side, in fringe widths, its ramp ends.
    pub const RAMP: f32 = 0.5;

    // ---- distance

    // A point in this frame.
    fn framed(self, p: Position) -> Position
        ensures { result ≡ framed_of self p }
    {
        Position {
            x: self.la * p.x + self.lb * p.y + self.ox,
            y: self.lc * p.x + self.ld * p.y + self.oy,
        }
    }

    // How far a point of this frame is past the sides.
    fn side(self, u: Position) -> Position
        ensures { result ≡ side_of self u }
    {
        Position {
            x: float::abs(u.x) - self.ex,
            y: float::abs(u.y) - self.ey,
        }
    }

    // How far it is past the corner's centre.
    fn corner(self, side: Position) -> Position
        ensures { result ≡ corner_of self side }
    {
        Position {
            x: side.x + self.rx,
            y: side.y + self.ry,
        }
    }

    // Whether a point lies off a round corner, the ends of the arc with it.
    #[tactic(auto, unfolding(crate::specs::Distance::round_of))]
    fn round(self, corner: Position) -> bool
        ensures { result ≡ round_of self corner }
    {
        self.rx > 0.0 && corner.x >= 0.0 && corner.y >= 0.0
    }

    // Whether its distance is that from the corner's arc.
    #[tactic(auto, unfolding(crate::specs::Distance::off_corner_of))]
    fn off_corner(self, corner: Position) -> bool
        ensures { result ≡ off_corner_of self corner }
    {
        self.rx > 0.0 && corner.x > 0.0 && corner.y > 0.0
    }

    #[tactic(auto, unfolding(crate::specs::Distance::lean_of))]
    fn lean(self, u: Position) -> f32
        ensures { result ≡ lean_of self u }
    {
        (self.la * self.lc + self.lb * self.ld) * float::signum(u.x) * float::signum(u.y)
    }

    #[tactic(auto, unfolding(crate::specs::Distance::corner_distance_of))]
    fn corner_distance(self, u: Position, corner: Position) -> f32
        ensures { result ≡ corner_distance_of self u corner }
    {
        let kx = corner.x / self.rx;
        let ky = corner.y / self.ry;
        let k1 = roots::hypot(kx, ky);
        let gx = kx / self.rx;
        let gy = ky / self.ry;
        let lean = self.lean(u);
        (k1 - 1.0) * k1 / roots::sqrt(gx * gx + gy * gy + 2.0 * gx * gy * lean)
    }

    // The distance from a corner's arc, or else from the nearer side.
    #[tactic(auto, unfolding(crate::specs::Distance::edge_distance_of))]
    fn edge_distance(self, u: Position, side: Position, corner: Position) -> f32
        ensures { result ≡ edge_distance_of self u side corner }
    {
        if self.off_corner(corner) {
            return self.corner_distance(u, corner);
        }
        float::max(side.x, side.y)
    }

    // A position's distance, and whether it lies off one of the box's round corners or off a side.
    #[tactic(auto, unfolding(crate::specs::Distance::locate_of))]
    fn locate(self, p: Position) -> Located
        ensures { result ≡ locate_of self p }
    {
        let u = self.framed(p);
        let side = self.side(u);
        let corner = self.corner(side);
        let distance = self.edge_distance(u, side, corner);
        let round = self.round(corner);
        Located { distance, round }
    }

    // Whether it lies off a round corner, alone. With a second caller of `locate` the compiler would leave
    // `round` in every distance.
    #[tactic(auto, unfolding(crate::specs::Distance::locate_of))]
    pub fn off_round_corner(self, p: Position) -> bool
        ensures { result ≡ (locate_of self p).round }
    {
        let side = self.side(self.framed(p));
        self.round(self.corner(side))
    }

    #[tactic(auto, unfolding(crate::specs::Distance::distance_of))]
    pub fn distance_unchecked(self, p: Position) -> f32
        ensures { result ≡ distance_of self p }
    {
        // Float by float: a point that is handed on whole is packed into one register and taken apart.
        self.locate(Position { x: p.x, y: p.y }).distance
    }

    // Signed distance from the box's edge at a device position, in fringe widths and negative inside.
    // Ruled out: the distance from the sides alone at a round corner; a NaN where one side alone is
    // one.
    pub fn distance(self, p: Position) -> Result<f32, Fault>
        ensures { result ≡ distance_call self p }
    {
        shape::point_check(p)?;
        Ok(self.distance_unchecked(p))
    }

    // ---- contains

    // Whether a point lies inside, within CONTAINMENT_SLACK.
    #[tactic(auto, unfolding(crate::specs::Distance::holds_point_of))]
    pub fn holds_point(self, p: Position) -> bool
        ensures { result ≡ holds_point_of self p }
    {
        self.distance_unchecked(p) <= Self::CONTAINMENT_SLACK
    }

    pub fn contains_unchecked(self, other: RoundedBox) -> bool
        ensures { result ≡ contains_of self other }
    {
        other.every_outline_point(|p| self.holds_point(p))
    }

    // Whether `other` lies inside this box, within CONTAINMENT_SLACK, so that clipping to both is
    // clipping to `other`.
    // Ruled out: a test of the four corners alone; true where a distance is a NaN.
    pub fn contains(self, other: RoundedBox) -> Result<bool, Fault>
        ensures { result ≡ contains_call self other }
    {
        other.check()?;
        Ok(self.contains_unchecked(other))
    }
}
