// The verbs of an outline: femtovg's path.rs. An outline is verb bytes and positions, two floats each.
#![tactic(auto)]

ghost use Rattle.std.specs.Prelude.{◌≡◌, ◌+◌, ◌*◌, ◌≤◌, length};
ghost use Rattle.path.specs.Verbs.{Unpacks, num_coordinates_of, from_packed_of};

use fault::Fault;

// A verb as its byte says it, MoveTo 0 to Close 5.
#[derive(Clone, Copy)]
pub enum PackedVerb {
    MoveTo,
    LineTo,
    BezierTo,
    Solid,
    Hole,
    Close,
}

// A verb with its positions.
#[derive(Clone, Copy)]
pub enum Verb {
    MoveTo(f32, f32),
    LineTo(f32, f32),
    // two control points and the end
    BezierTo(f32, f32, f32, f32, f32, f32),
    Solid,
    Hole,
    Close,
}

// A byte's verb, or the refusal of a byte that is none.
// Ruled out: a verb for the byte 6; Solid and Hole exchanged.
impl TryFrom<u8> for PackedVerb {
    type Error = Fault;

    ghost try_from_gives = { Unpacks };

    #[tactic(auto, unfolding(crate::specs::Verbs::unpacked_of))]
    fn try_from(byte: u8) -> Result<Self, Fault> {
        match byte {
            0 => Ok(PackedVerb::MoveTo),
            1 => Ok(PackedVerb::LineTo),
            2 => Ok(PackedVerb::BezierTo),
            3 => Ok(PackedVerb::Solid),
            4 => Ok(PackedVerb::Hole),
            5 => Ok(PackedVerb::Close),
            _ => Err(Fault::UnknownVerb),
        }
    }
}

impl PackedVerb {
    // How many positions the verb takes.
    // Ruled out: one for a curve; one for Close.
    pub fn num_coordinates(self) -> usize
        ensures { result ≡ num_coordinates_of self }
    {
        match self {
            PackedVerb::MoveTo | PackedVerb::LineTo => 1,
            PackedVerb::BezierTo => 3,
            PackedVerb::Solid | PackedVerb::Hole | PackedVerb::Close => 0,
        }
    }
}

impl Verb {
    // The verb with the positions that stand at place `at` of the floats.
    pub fn from_packed(packed: PackedVerb, coords: &[f32], at: usize) -> Verb
        requires { at + 2 * num_coordinates_of packed ≤ length coords.now }
        ensures { result ≡ from_packed_of packed coords.now at }
    {
        match packed {
            PackedVerb::MoveTo => Verb::MoveTo(coords[at], coords[at + 1]),
            PackedVerb::LineTo => Verb::LineTo(coords[at], coords[at + 1]),
            PackedVerb::BezierTo => Verb::BezierTo(
                coords[at],
                coords[at + 1],
                coords[at + 2],
                coords[at + 3],
                coords[at + 4],
                coords[at + 5],
            ),
            PackedVerb::Solid => Verb::Solid,
            PackedVerb::Hole => Verb::Hole,
            PackedVerb::Close => Verb::Close,
        }
    }
}
