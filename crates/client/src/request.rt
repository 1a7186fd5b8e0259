// A request written from a tag and operations.
ghost use Rattle.std.specs.Prelude.{◌≡◌, ◌+◌, ◌<◌, ◌^◌, length};
ghost use Rattle.xdr.specs.Writing.{Wrote, HasRoom};
ghost use Rattle.xdr.specs.Encode.{opaque_size};
ghost use Rattle.rules.specs.Operation.{header_layout};
ghost use Rattle.client.specs.Given.{given, refusal_number, WritePromise};

use crate::put::put_operations;
use crate::size::ops_size;
use wire::Operation;
use xdr::Writer;

/// Why a request is not written: the buffer is too short; what is given can't be written.
#[derive(Clone, Copy, Debug, PartialEq, Eq)]
pub enum Refusal {
    ShortBuffer = 9,
    NotWritable = 11,
}

/// A request's limits, and its minor version.
pub struct Request;

impl Request {
    /// Bytes of a bitmap's words.
    pub const MAX_BITMAP: usize = 16;

    /// Bytes of a request.
    pub const MAX_SIZE: usize = 65536;

    pub const MINOR: u32 = 2;
}

impl Refusal {
    pub fn number(self) -> u32
        ensures { result ≡ refusal_number self }
    {
        self as u32
    }
}

// Tag, minor version and number of operations.
#[tactic(auto, using(crate::proofs::WriteLaws::lengths))]
fn put_header(w: &mut Writer<'_>, tag: &[u8], count: u32)
    requires tag { length tag.now < 2 ^ 32 }
    requires room { HasRoom (opaque_size (length tag.now) + 8) w.old }
    ensures { Wrote (header_layout.write (tag.now, (2, count))) w.old w.new }
{
    w.opaque(tag);
    w.u32(Request::MINOR);
    w.u32(count);
}

/// The operations, with the data that their spans are of. Answers how many bytes were written.
#[tactic(auto, using(crate::proofs::RequestLaws::refusals))]
pub fn write_request(
    tag: &[u8],
    ops: &[Operation],
    lent: &[u8],
    out: &mut [u8],
) -> Result<usize, Refusal>
    ensures { WritePromise tag.now (given lent.now ops.now) out.old result out.new }
{
    let n = tag.len();
    if ops.len() > Operation::MAX_OPS as usize || n > Operation::MAX_TAG as usize {
        return Err(Refusal::NotWritable);
    }
    let start = 12 + (n + xdr::padding(n));
    let size = start + ops_size(lent, ops).ok_or(Refusal::NotWritable)?;
    if Request::MAX_SIZE < size {
        return Err(Refusal::NotWritable);
    }
    if out.len() < size {
        return Err(Refusal::ShortBuffer);
    }
    let mut w = Writer { out, at: 0 };
    put_header(&mut w, tag, ops.len() as u32);
    put_operations(&mut w, lent, ops);
    Ok(w.at)
}
