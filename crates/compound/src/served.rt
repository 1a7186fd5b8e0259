// What a call that serves a compound answers.
ghost use Rattle.std.specs.Prelude.{◌≡◌};
ghost use Rattle.compound.specs.Runner.{place_told, refused_number, refused_place};
ghost use Rattle.compound.specs.declared.served.Refused.{Refused};

use tables::Refusal;

/// A compound that was served: the bytes read and written, and the place where the request went wrong.
#[derive(Clone, Copy, Debug, PartialEq, Eq)]
pub struct Served {
    pub read: usize,
    pub written: usize,
    pub place: Option<usize>,
}

impl Served {
    // The minor version; the bytes of the verifier; the most bytes of a request, and the fewest of a reply buffer.
    pub const MINOR: u32 = 2;

    pub const VERIFIER: usize = 8;

    pub const MAX_REQUEST: usize = 65536;

    pub const MIN_REPLY: usize = 32768;
}

/// Why a call does nothing: the tables, the length of the request or of the reply, or a header that goes wrong at a place.
#[derive(Clone, Copy, Debug, PartialEq, Eq)]
pub enum Refused {
    Tables(Refusal),
    LongRequest,
    ShortReply,
    BadHeader(usize),
}

impl From<Refusal> for Refused {
    ghost from_gives = { λ r e. e ≡ Refused.Tables r };

    fn from(refusal: Refusal) -> Self {
        Refused::Tables(refusal)
    }
}

impl Refused {
    /// Its number; 1 to 3 are of the tables.
    pub fn number(self) -> u32
        ensures { result ≡ refused_number self }
    {
        match self {
            Refused::Tables(refusal) => refusal.number(),
            Refused::LongRequest => 4,
            Refused::ShortReply => 5,
            Refused::BadHeader(_) => 6,
        }
    }

    /// Where the header goes wrong.
    pub fn place(self) -> Option<usize>
        ensures { place_told result ≡ refused_place self }
    {
        match self {
            Refused::BadHeader(place) => Some(place),
            _ => None,
        }
    }
}
