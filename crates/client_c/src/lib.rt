// The calls for builders: client.h has their C declarations. Each hands its arguments to the call below it.
#![tactic(auto)]

ghost use Rattle.std.specs.Prelude.{◌≡◌};
ghost use Rattle.client.specs.Records.{given_records};
ghost use Rattle.client_c.specs.Told.{RequestPromise, OpenedPromise, body_numbers, StepPromise, PiecePromise};

use client::{Body, NotOpened, Piece, next_piece, open_reply, step, write_records};
use xdr::{Reader, Span};

// Behind the last result.
const DONE: u32 = 1;

const NO_STATUS: u64 = 4294967295;

/// Writes a request: 0, or refusal 9 or 11.
#[unsafe(no_mangle)]
pub extern "C" fn client_write_request(
    tag: &[u8],
    operations: &[u64],
    lent: &[u8],
    request: &mut [u8],
    written: &mut [u64; 1],
) -> u32
    ensures { RequestPromise tag.now (given_records lent.now operations.now) request.old
        result written.new request.new }
{
    match write_records(tag, operations, lent, request) {
        Ok(size) => {
            *written = [size as u64];
            0
        }
        Err(refusal) => {
            *written = [0];
            refusal.number()
        }
    }
}

/// Opens a reply: 0, or refusal 10. `told` gets its status and the place of its first result.
#[unsafe(no_mangle)]
pub extern "C" fn client_open_reply(
    tag: &[u8],
    numbers: &[u32],
    reply: &[u8],
    told: &mut [u64; 2],
) -> u32
    ensures { OpenedPromise tag.now numbers.now reply.now result told.new }
{
    match open_reply(tag, numbers, reply) {
        Ok(opened) => {
            *told = [u64::from(opened.status), opened.first as u64];
            0
        }
        Err(refusal) => {
            *told = [NO_STATUS, reply.len() as u64];
            refusal.number()
        }
    }
}

// Where a span starts, and how long it is.
fn wide(d: Span) -> (u64, u64)
    ensures { (result.0 ≡ d.start) × (result.1 ≡ d.len) }
{
    (d.start as u64, d.len as u64)
}

fn body_numbers(body: Body) -> [u64; 7]
    ensures { result ≡ body_numbers body }
{
    match body {
        Body::Empty => [0; 7],
        Body::Attrs(a) => {
            let ((bitmap, size), (values, len)) = (wide(a.bitmap), wide(a.values));
            [bitmap, size, values, len, 0, 0, 0]
        }
        Body::Handle(d) => {
            let (start, len) = wide(d);
            [start, len, 0, 0, 0, 0, 0]
        }
        Body::FileData(a) => {
            let (start, len) = wide(a.data);
            [u64::from(a.eof), start, len, 0, 0, 0, 0]
        }
        Body::Written(a) => {
            let (start, len) = wide(a.verifier);
            let (count, committed) = (u64::from(a.count), u64::from(a.committed));
            [count, committed, start, len, 0, 0, 0]
        }
        Body::Copied(a) => {
            let (committed, (start, len)) = (u64::from(a.committed), wide(a.verifier));
            let (consecutive, synchronous) = (u64::from(a.consecutive), u64::from(a.synchronous));
            [a.count, committed, start, len, consecutive, synchronous, 0]
        }
        Body::Pieces(a) => {
            let (eof, count) = (u64::from(a.eof), u64::from(a.count));
            [eof, count, a.first as u64, 0, 0, 0, 0]
        }
        Body::Sought(a) => [u64::from(a.eof), a.offset, 0, 0, 0, 0, 0],
    }
}

/// The result at a place of a reply: 0, 1 behind the last, or 10. `told` gets its numbers.
#[unsafe(no_mangle)]
pub extern "C" fn client_next_result(reply: &[u8], at: u64, told: &mut [u64; 10]) -> u32
    ensures { StepPromise reply.now at result told.new }
{
    let mut r = Reader {
        bytes: reply,
        at: at as usize,
    };
    match step(&mut r) {
        Ok(Some(result)) => {
            let [a, b, c, d, e, f, g] = body_numbers(result.body);
            let (number, status) = (u64::from(result.number), u64::from(result.status));
            *told = [number, status, r.at as u64, a, b, c, d, e, f, g];
            0
        }
        Ok(None) => {
            *told = [0; 10];
            DONE
        }
        Err(_) => {
            *told = [0; 10];
            NotOpened.number()
        }
    }
}

/// The piece at a place of a reply: 0 or 10.
#[unsafe(no_mangle)]
pub extern "C" fn client_next_piece(reply: &[u8], at: u64, told: &mut [u64; 5]) -> u32
    ensures { PiecePromise reply.now at result told.new }
{
    let mut r = Reader {
        bytes: reply,
        at: at as usize,
    };
    match next_piece(&mut r) {
        Some(Piece::Data(p)) => {
            let (start, len) = wide(p.data);
            *told = [0, p.offset, len, start, r.at as u64];
            0
        }
        Some(Piece::Hole(p)) => {
            *told = [1, p.offset, p.length, 0, r.at as u64];
            0
        }
        None => {
            *told = [0; 5];
            NotOpened.number()
        }
    }
}
