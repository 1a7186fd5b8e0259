// A decoded request: its header, and an operation. The tag, stateids, handles and data stay where they are, as spans.
ghost use Rattle.std.specs.Prelude.{◌≡◌, List, ℕ};
ghost use Rattle.rules.specs.Operation.{op_number};
ghost use Rattle.wire.specs.Decoded.{meaning};

use crate::status::Status;
use xdr::Span;

#[derive(Clone, Copy, Debug, PartialEq, Eq)]
pub struct Header {
    pub tag: Span,
    pub minor: u32,
    pub ops: u32,
}

/// Of READ and READ_PLUS; of SEEK too, where `count` is the kind that is asked for.
#[derive(Clone, Copy, Debug, PartialEq, Eq)]
pub struct ReadArgs {
    pub stateid: Span,
    pub offset: u64,
    pub count: u32,
}

#[derive(Clone, Copy, Debug, PartialEq, Eq)]
pub struct WriteArgs {
    pub stateid: Span,
    pub offset: u64,
    pub stable: u32,
    pub data: Span,
}

/// Of ALLOCATE and DEALLOCATE.
#[derive(Clone, Copy, Debug, PartialEq, Eq)]
pub struct RegionArgs {
    pub stateid: Span,
    pub offset: u64,
    pub length: u64,
}

#[derive(Clone, Copy, Debug, PartialEq, Eq)]
pub struct CloneArgs {
    pub source: Span,
    pub target: Span,
    pub from: u64,
    pub to: u64,
    pub count: u64,
}

/// Of a COPY with no source server. A request's two booleans are 0 or 1. They are numbers, since a caller who writes a request may give
/// any, and another one is refused.
#[derive(Clone, Copy, Debug, PartialEq, Eq)]
pub struct CopyArgs {
    pub clone: CloneArgs,
    pub consecutive: u32,
    pub synchronous: u32,
}

/// GETATTR's span has the words of its bitmap, PUTFH's the handle.
#[derive(Clone, Copy, Debug, PartialEq, Eq)]
pub enum Operation {
    GetAttr(Span),
    GetFh,
    PutFh(Span),
    Read(ReadArgs),
    RestoreFh,
    SaveFh,
    Write(WriteArgs),
    Allocate(RegionArgs),
    Copy(CopyArgs),
    Deallocate(RegionArgs),
    ReadPlus(ReadArgs),
    Seek(ReadArgs),
    Clone(CloneArgs),
}

impl Operation {
    /// Operation numbers.
    pub const GETATTR: u32 = 9;

    pub const GETFH: u32 = 10;

    pub const PUTFH: u32 = 22;

    pub const READ: u32 = 25;

    pub const RESTOREFH: u32 = 31;

    pub const SAVEFH: u32 = 32;

    pub const WRITE: u32 = 38;

    pub const SEQUENCE: u32 = 53;

    pub const ALLOCATE: u32 = 59;

    pub const COPY: u32 = 60;

    pub const DEALLOCATE: u32 = 62;

    pub const READ_PLUS: u32 = 68;

    pub const SEEK: u32 = 69;

    pub const CLONE: u32 = 71;
    // The lowest and the highest number that the protocol knows, and the one that stands for all others.
    pub const LOWEST: u32 = 3;

    pub const HIGHEST: u32 = 71;

    pub const ILLEGAL: u32 = 10044;

    /// Limits: bytes of a stateid, of a handle and of a tag; words of a bitmap; the highest stable_how; operations in a compound.
    pub const STATEID: usize = 16;

    pub const MAX_HANDLE: u32 = 128;

    pub const MAX_TAG: u32 = 1024;

    pub const MAX_BITMAP: u32 = 4;

    pub const MAX_STABLE: u32 = 2;

    pub const MAX_OPS: u32 = 12;

    /// Bytes that a READ grants at most.
    pub const MAX_READ: u32 = 2048;

    pub fn number(self) -> u32
        ensures { (s : List ℕ) → result ≡ op_number (meaning s self) }
    {
        match self {
            Operation::GetAttr(_) => Operation::GETATTR,
            Operation::GetFh => Operation::GETFH,
            Operation::PutFh(_) => Operation::PUTFH,
            Operation::Read(_) => Operation::READ,
            Operation::RestoreFh => Operation::RESTOREFH,
            Operation::SaveFh => Operation::SAVEFH,
            Operation::Write(_) => Operation::WRITE,
            Operation::Allocate(_) => Operation::ALLOCATE,
            Operation::Copy(_) => Operation::COPY,
            Operation::Deallocate(_) => Operation::DEALLOCATE,
            Operation::ReadPlus(_) => Operation::READ_PLUS,
            Operation::Seek(_) => Operation::SEEK,
            Operation::Clone(_) => Operation::CLONE,
        }
    }
}

/// The result that ends the compound in place of an operation's own.
#[derive(Clone, Copy, Debug, PartialEq, Eq)]
pub struct Ending {
    pub number: u32,
    pub status: Status,
}
