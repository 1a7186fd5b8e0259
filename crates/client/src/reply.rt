// A reply as read: results, their bodies, pieces of READ_PLUS. Bytes stay where they are in the reply, as spans.
use xdr::Span;

/// GETATTR's: the bitmap's words, and the values.
#[derive(Clone, Copy, Debug, PartialEq, Eq)]
pub struct AttrsBody {
    pub bitmap: Span,
    pub values: Span,
}

/// READ's.
#[derive(Clone, Copy, Debug, PartialEq, Eq)]
pub struct DataBody {
    pub eof: bool,
    pub data: Span,
}

#[derive(Clone, Copy, Debug, PartialEq, Eq)]
pub struct WrittenBody {
    pub count: u32,
    pub committed: u32,
    pub verifier: Span,
}

#[derive(Clone, Copy, Debug, PartialEq, Eq)]
pub struct CopiedBody {
    pub count: u64,
    pub committed: u32,
    pub verifier: Span,
    pub consecutive: bool,
    pub synchronous: bool,
}

/// READ_PLUS's: so many pieces, the first at place `first`.
#[derive(Clone, Copy, Debug, PartialEq, Eq)]
pub struct PiecesBody {
    pub eof: bool,
    pub count: u32,
    pub first: usize,
}

#[derive(Clone, Copy, Debug, PartialEq, Eq)]
pub struct SoughtBody {
    pub eof: bool,
    pub offset: u64,
}

/// The body of a result. It is empty where the operation failed, or answers OK alone.
#[derive(Clone, Copy, Debug, PartialEq, Eq)]
pub enum Body {
    Empty,
    Attrs(AttrsBody),
    Handle(Span),
    FileData(DataBody),
    Written(WrittenBody),
    Copied(CopiedBody),
    Pieces(PiecesBody),
    Sought(SoughtBody),
}

impl Body {
    /// Bytes of a verifier, the number of callback ids, and the highest content type of a piece.
    pub const VERIFIER: usize = 8;

    pub const CALLBACKS: u32 = 0;

    pub const MAX_CONTENT: u32 = 1;
}

#[derive(Clone, Copy, Debug, PartialEq, Eq)]
pub struct OpResult {
    pub number: u32,
    pub status: u32,
    pub body: Body,
}

/// No result stands at a place. The reader tells the place of the fault.
#[derive(Clone, Copy, Debug, PartialEq, Eq)]
pub struct Fault;

#[derive(Clone, Copy, Debug, PartialEq, Eq)]
pub struct DataPiece {
    pub offset: u64,
    pub data: Span,
}

#[derive(Clone, Copy, Debug, PartialEq, Eq)]
pub struct HolePiece {
    pub offset: u64,
    pub length: u64,
}

/// A piece of READ_PLUS.
#[derive(Clone, Copy, Debug, PartialEq, Eq)]
pub enum Piece {
    Data(DataPiece),
    Hole(HolePiece),
}
