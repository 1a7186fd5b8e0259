// Readers of bodies, by their layouts. Each asks nothing of the place where its reader stands.
ghost use Rattle.std.specs.Prelude.{◌≡◌};
ghost use Rattle.xdr.specs.Decode.{times};
ghost use Rattle.xdr.specs.Reading.{parsed, itself};
ghost use Rattle.rules.specs.Operation.{reading, copy_result};
ghost use Rattle.rules.specs.Client.{piece_layout, copied, body_by};
ghost use Rattle.client.specs.Read.{of_piece, of_body, end_of};

use crate::reply::{
    AttrsBody, Body, CopiedBody, DataBody, DataPiece, HolePiece, Piece, PiecesBody, SoughtBody,
    WrittenBody,
};
use wire::Operation;
use xdr::Reader;

/// The piece of READ_PLUS at the reader's place.
#[tactic(auto, using(crate::proofs::ReadLaws::piece_by), unfolding(xdr::specs::Decode::opaque_up_to))]
pub fn next_piece(r: &mut Reader<'_>) -> Option<Piece>
    ensures value { parsed (of_piece r.old.bytes.now) result r.new.at ≡ piece_layout.read r.old.bytes.now r.old.at }
    ensures bytes { r.new.bytes ≡ r.old.bytes }
{
    let kind = r.up_to(Body::MAX_CONTENT)?;
    let offset = r.u64()?;
    if kind == 0 {
        let data = r.opaque(Reader::MAX_LENGTH)?;
        return Some(Piece::Data(DataPiece { offset, data }));
    }
    let length = r.u64()?;
    Some(Piece::Hole(HolePiece { offset, length }))
}

// Goes behind n pieces.
#[tactic(auto, using(crate::proofs::ReadLaws::end_step), unfolding(xdr::specs::Decode::times))]
fn past_pieces(r: &mut Reader<'_>, n: u32) -> Option<()>
    ensures value { parsed itself result r.new.at ≡ end_of (times n piece_layout.read r.old.bytes.now r.old.at) }
    ensures bytes { r.new.bytes ≡ r.old.bytes }
{
    for _ in 0..n {
        next_piece(r)?;
    }
    Some(())
}

// COPY's, without callback ids.
#[tactic(auto, unfolding(xdr::specs::Decode::fixed))]
fn copied_body(r: &mut Reader<'_>) -> Option<Body>
    ensures value { parsed (of_body r.old.bytes.now) result r.new.at
        ≡ reading copy_result (λ a. copied a.1.0 a.1.1.0 a.1.1.1.0 a.1.1.1.1.0 a.1.1.1.1.1) r.old.bytes.now r.old.at }
    ensures bytes { r.new.bytes ≡ r.old.bytes }
{
    r.up_to(Body::CALLBACKS)?;
    Some(Body::Copied(CopiedBody {
        count: r.u64()?,
        committed: r.up_to(Operation::MAX_STABLE)?,
        verifier: r.fixed(Body::VERIFIER)?,
        consecutive: r.boolean()?,
        synchronous: r.boolean()?,
    }))
}

/// The body of an operation that answers OK. One that is not served has none that can be read.
#[tactic(auto, using(crate::proofs::ReadLaws::from_end, crate::proofs::ReadLaws::from_fault), unfolding(xdr::specs::Decode::fixed, xdr::specs::Decode::opaque_up_to, xdr::specs::Decode::array_up_to))]
pub fn ok_body(r: &mut Reader<'_>, number: u32) -> Option<Body>
    ensures value { parsed (of_body r.old.bytes.now) result r.new.at ≡ body_by number 0 r.old.bytes.now r.old.at }
    ensures bytes { r.new.bytes ≡ r.old.bytes }
{
    match number {
        Operation::GETATTR => Some(Body::Attrs(AttrsBody {
            bitmap: r.array(Reader::MAX_LENGTH)?,
            values: r.opaque(Reader::MAX_LENGTH)?,
        })),
        Operation::GETFH => Some(Body::Handle(r.opaque(Operation::MAX_HANDLE)?)),
        Operation::READ => Some(Body::FileData(DataBody {
            eof: r.boolean()?,
            data: r.opaque(Reader::MAX_LENGTH)?,
        })),
        Operation::WRITE => Some(Body::Written(WrittenBody {
            count: r.u32()?,
            committed: r.up_to(Operation::MAX_STABLE)?,
            verifier: r.fixed(Body::VERIFIER)?,
        })),
        Operation::COPY => copied_body(r),
        Operation::READ_PLUS => {
            let (eof, count, first) = (r.boolean()?, r.u32()?, r.at);
            past_pieces(r, count)?;
            Some(Body::Pieces(PiecesBody { eof, count, first }))
        }
        Operation::SEEK => Some(Body::Sought(SoughtBody {
            eof: r.boolean()?,
            offset: r.u64()?,
        })),
        Operation::PUTFH
        | Operation::RESTOREFH
        | Operation::SAVEFH
        | Operation::ALLOCATE
        | Operation::DEALLOCATE
        | Operation::CLONE => Some(Body::Empty),
        _ => None,
    }
}
