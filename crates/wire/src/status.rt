// The status of an operation or of a compound.
ghost use Rattle.std.specs.Prelude.{◌≡◌};
ghost use Rattle.wire.specs.Status.{number_of};

/// The numbers of RFC 5661 (15.1) and RFC 7862 (11.1).
#[derive(Clone, Copy, Debug, PartialEq, Eq)]
pub enum Status {
    Ok = Status::OK as isize,
    NxIo = Status::NXIO as isize,
    Inval = Status::INVAL as isize,
    FBig = Status::FBIG as isize,
    NoSpace = Status::NOSPC as isize,
    Stale = Status::STALE as isize,
    BadHandle = Status::BADHANDLE as isize,
    NotSupported = Status::NOTSUPP as isize,
    NoFileHandle = Status::NOFILEHANDLE as isize,
    MinorVersionMismatch = Status::MINOR_VERS_MISMATCH as isize,
    BadStateid = Status::BAD_STATEID as isize,
    BadXdr = Status::BADXDR as isize,
    OpIllegal = Status::OP_ILLEGAL as isize,
    SequencePosition = Status::SEQUENCE_POS as isize,
    TooManyOps = Status::TOO_MANY_OPS as isize,
    UnionNotSupported = Status::UNION_NOTSUPP as isize,
}

impl Status {
    pub const OK: u32 = 0;

    pub const NXIO: u32 = 6;

    pub const INVAL: u32 = 22;

    pub const FBIG: u32 = 27;

    pub const NOSPC: u32 = 28;

    pub const STALE: u32 = 70;

    pub const BADHANDLE: u32 = 10001;

    pub const NOTSUPP: u32 = 10004;

    pub const NOFILEHANDLE: u32 = 10020;

    pub const MINOR_VERS_MISMATCH: u32 = 10021;

    pub const BAD_STATEID: u32 = 10025;

    pub const BADXDR: u32 = 10036;

    pub const OP_ILLEGAL: u32 = 10044;

    pub const SEQUENCE_POS: u32 = 10064;

    pub const TOO_MANY_OPS: u32 = 10070;

    pub const UNION_NOTSUPP: u32 = 10090;

    /// Its number in a reply.
    pub fn number(self) -> u32
        ensures { result ≡ number_of self }
    {
        self as u32
    }
}
