// Why a call is turned away: the causes that documents 01 and 02 number, and what a look at a call's
// arguments says.
#![tactic(auto)]

ghost use Rattle.std.specs.Prelude.{◌≡◌};
ghost use Rattle.fault.specs.Number.{number_of};

// One variant for each cause, in its document's words: document 01's table to 12, document 02 from 13 on.
// 10 was a curve verb given to the fitter, and is given to nothing since change 5.
#[derive(Clone, Copy, Debug, PartialEq, Eq)]
pub enum Fault {
    // a box, frame, point, fringe or position number is not finite, or its size is over 2^20
    NumberOutOfRange = 1,
    // a half extent or radius below 0, or a radius over its half extent
    ImproperBox = 2,
    // a mask width or height over 4,096
    MaskTooLarge = 3,
    // mask, other mask or scratch too short; a lent file too short to be written
    BufferTooShort = 4,
    // a word list ends inside a group
    ListEndsEarly = 5,
    // a count word below 0, or points passing 2,048 in the list
    CountOutOfRange = 6,
    // a coordinate word beyond ±1,048,576
    CoordinateOutOfRange = 7,
    // a verb byte above 5
    UnknownVerb = 8,
    // verbs need more positions than given, or fewer
    PositionsMismatch = 9,
    // over 256 verbs
    TooManyVerbs = 11,
    // over 4,096 boxes in a touch list
    TooManyBoxes = 12,
    // a wrong mark, a missing or bad number or one of over nine digits, missing whitespace, a comment,
    // or a width or height of 0
    NotPgm = 13,
    // a depth other than 255
    WrongDepth = 14,
    // a raster that is not exactly width × height bytes
    WrongRaster = 15,
    // a corner number beyond ±1,048,576, when laying on by corners
    CornerOutOfRange = 16,
}

impl Fault {
    // The documents' number.
    pub fn number(self) -> u8
        ensures { result ≡ number_of self }
    {
        self as u8
    }
}

// What a look at a call's arguments says: nothing, or why the call is turned away.
pub type Check = Result<(), Fault>;
