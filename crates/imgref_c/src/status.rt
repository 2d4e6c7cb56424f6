//! The results of calls.

ghost use Rattle.std.specs.Prelude.{◌≡◌};

/// The result of a call: it is done, or the first test that failed.
#[derive(Clone, Copy, PartialEq, Eq)]
pub(crate) enum Status {
    /// It is done.
    Done,
    /// The cells aren't an image of that width, height and stride.
    NotAnImage,
    /// The window isn't inside the image.
    WindowOutside,
    /// The window and the source differ in width or height.
    SizesDiffer,
    /// There is no pixel in that column and row.
    PlaceOutside,
    /// There is no tile with that number, or a tile would have no pixel.
    NoTile,
    /// There is no turn of that number.
    NoTurn,
    /// A sum might not fit its number.
    TooLarge,
    /// The work buffer has fewer numbers than there are places.
    NoRoom,
}

impl Status {
    ghost use Rattle.imgref_c.specs.Status.{code};

    /// Its number in the header.
    pub(crate) fn code(self) -> u32
        ensures { result ≡ code self }
    {
        match self {
            Status::Done => 0,
            Status::NotAnImage => 1,
            Status::WindowOutside => 2,
            Status::SizesDiffer => 3,
            Status::PlaceOutside => 4,
            Status::NoTile => 5,
            Status::NoTurn => 6,
            Status::TooLarge => 7,
            Status::NoRoom => 8,
        }
    }
}
