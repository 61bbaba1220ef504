// Refusals, lengths and settings as numbers.
ghost use Rattle.std.specs.Prelude.{◌≡◌, MatchResult};
ghost use Rattle.numbers.specs.Refusing.{not_refused, refused_by, done_by, length_by, frame_length_by, settings_by};

use storage::geometry::Geometry;
use waymaker_core::error::{DecodeError, Refusal};

// Document 01's number of a refusal and the values that come with it; all 0 where nothing is refused. Here and in the
// structs below C takes numbers in place of an enum: each has its refusal and its value side by side, and whether there
// is a place beside the place.
#[repr(C)]
#[derive(Clone, Copy)]
pub struct Refused {
    pub number: u8,
    pub has_place: u8,
    pub needed: u32,
    pub available: u32,
    pub place: u32,
}

#[repr(C)]
#[derive(Clone, Copy)]
pub struct Length {
    pub refused: Refused,
    pub bytes: usize,
}

// The geometry is all 0 where the settings are refused.
#[repr(C)]
#[derive(Clone, Copy)]
pub struct Settings {
    pub refused: Refused,
    pub geometry: Geometry,
}

// Nothing is refused. Here and below zeros are written out: a constant calls no function, and a Default would offer
// values that no call gives.
pub const NONE: Refused = Refused {
    number: 0,
    has_place: 0,
    needed: 0,
    available: 0,
    place: 0,
};

pub const NO_GEOMETRY: Geometry = Geometry {
    bytes: 0,
    program_size: 0,
    read_size: 0,
};

impl From<Refusal> for Refused {
    ghost from_gives = { λ refusal refused. refused ≡ refused_by refusal };

    fn from(refusal: Refusal) -> Refused {
        let place = refusal.place();
        Refused {
            number: refusal.number(),
            has_place: u8::from(place.is_some()),
            needed: refusal.needed(),
            available: refusal.available(),
            place: place.unwrap_or(0),
        }
    }
}

// What C has in place of a Result: the refusal, or none, and the value, or what stands where there is none.
pub fn apart<T: Drop>(answer: Result<T, Refusal>, otherwise: T) -> (Refused, T)
    ensures { MatchResult answer (λ value. result ≡ (not_refused, value)) (λ e. result ≡ (refused_by e, otherwise)) }
{
    match answer {
        Ok(value) => (NONE, value),
        Err(refusal) => (Refused::from(refusal), otherwise),
    }
}

impl From<Result<(), Refusal>> for Refused {
    ghost from_gives = { λ answer refused. refused ≡ done_by answer };

    fn from(answer: Result<(), Refusal>) -> Refused {
        apart(answer, ()).0
    }
}

impl From<Result<usize, Refusal>> for Length {
    ghost from_gives = { λ size length. length ≡ length_by size };

    fn from(size: Result<usize, Refusal>) -> Length {
        let (refused, bytes) = apart(size, 0);
        Length { refused, bytes }
    }
}

// A frame's length likewise.
impl From<Result<usize, DecodeError>> for Length {
    ghost from_gives = { λ size length. length ≡ frame_length_by size };

    fn from(size: Result<usize, DecodeError>) -> Length {
        Length::from(size.map_err(Refusal::from))
    }
}

impl From<Result<Geometry, Refusal>> for Settings {
    ghost from_gives = { λ checked settings. settings ≡ settings_by checked };

    fn from(checked: Result<Geometry, Refusal>) -> Settings {
        // By a match, and not by `apart`: so the compiler stores the region's length in one piece.
        match checked {
            Ok(geometry) => Settings {
                refused: NONE,
                geometry,
            },
            Err(refusal) => Settings {
                refused: Refused::from(refusal),
                geometry: NO_GEOMETRY,
            },
        }
    }
}
