// Results: their first two fields, the bodies of WRITE, COPY and SEEK, the pieces of READ_PLUS.
ghost use Rattle.std.specs.Prelude.{◌++◌};
ghost use Rattle.xdr.specs.Encode.{u32, u64};
ghost use Rattle.xdr.specs.Writing.{Wrote, HasRoom};
ghost use Rattle.rules.specs.Operation.{write_reply, copy_reply, hole_piece, seek_result};

use xdr::Writer;

// FILE_SYNC4.
const FILE_SYNC: u32 = 2;

/// The first two fields of a result: operation number and status.
#[tactic(auto, using(xdr::proofs::EncodeLaws::lengths))]
pub fn put_result(w: &mut Writer<'_>, number: u32, status: u32)
    requires { HasRoom 8 w.old }
    ensures { Wrote (u32 number ++ u32 status) w.old w.new }
{
    w.u32(number);
    w.u32(status);
}

/// WRITE's: count, committed, verifier.
#[tactic(auto, using(xdr::proofs::EncodeLaws::lengths))]
pub fn put_written(w: &mut Writer<'_>, count: u32, verifier: u64)
    requires { HasRoom 16 w.old }
    ensures { Wrote (write_reply count (u64 verifier)) w.old w.new }
{
    w.u32(count);
    w.u32(FILE_SYNC);
    w.u64(verifier);
}

/// COPY's: no callback id, count, committed, verifier, consecutive, synchronous.
#[tactic(auto, using(xdr::proofs::EncodeLaws::lengths))]
pub fn put_copied(w: &mut Writer<'_>, count: u64, verifier: u64)
    requires { HasRoom 32 w.old }
    ensures { Wrote (copy_reply count (u64 verifier)) w.old w.new }
{
    w.u32(0);
    w.u64(count);
    w.u32(FILE_SYNC);
    w.u64(verifier);
    w.boolean(true);
    w.boolean(true);
}

/// SEEK's: eof, the place.
#[tactic(auto, using(xdr::proofs::EncodeLaws::lengths))]
pub fn put_sought(w: &mut Writer<'_>, eof: bool, place: u64)
    requires { HasRoom 12 w.old }
    ensures { Wrote (seek_result.write (eof, place)) w.old w.new }
{
    w.boolean(eof);
    w.u64(place);
}

/// A piece of READ_PLUS that is a hole.
#[tactic(auto, using(xdr::proofs::EncodeLaws::lengths))]
pub fn put_hole(w: &mut Writer<'_>, start: u64, n: u64)
    requires { HasRoom 20 w.old }
    ensures { Wrote (hole_piece.write (1, (start, n))) w.old w.new }
{
    w.u32(1);
    w.u64(start);
    w.u64(n);
}

/// The head of a piece of data: content type and offset. The data follow.
#[tactic(auto, using(xdr::proofs::EncodeLaws::lengths))]
pub fn put_data_head(w: &mut Writer<'_>, start: u64)
    requires { HasRoom 12 w.old }
    ensures { Wrote (u32 0 ++ u64 start) w.old w.new }
{
    w.u32(0);
    w.u64(start);
}
