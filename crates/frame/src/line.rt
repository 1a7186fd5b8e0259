// The call on one line: its digits read, the request served, the answer written as digits.
ghost use Rattle.std.specs.Prelude.{◌≡◌, ◌≤◌, length, replicate};
ghost use Rattle.tables.specs.Lent.{dimensions_of};
ghost use Rattle.tables.specs.Loans.{lent_store, KeepsLoan};
ghost use Rattle.rules.specs.Line.{frame_geometry, answer_line, answer_request};
ghost use Rattle.frame.specs.LineCall.{line_into, LinePromise};

use crate::hex::{Request, put_hex, put_refusal, request_bytes};
use compound::Served;
use tables::{Dimensions, Lent};

/// Room for every answer's line.
pub const MIN_OUT: usize = 65536;

/// The store that the programs' lines are served on: F 4, S 16, N 32, B 512.
#[derive(Clone, Copy)]
pub struct Frame {}

impl Frame {
    /// Its tables.
    pub const SIZES: usize = 4;

    pub const WORDS: usize = 64;

    pub const MEMORY: usize = 16384;
}

/// Its geometry.
pub fn frame_geometry() -> Dimensions
    ensures { dimensions_of result ≡ frame_geometry }
{
    Dimensions {
        files: 4,
        slots: 16,
        blocks: 32,
        block_size: 512,
    }
}

// The answer's line of a request. `reply` is the zeroed reply buffer; the verifier is zero.
fn serve_into(lent: &mut Lent<'_>, request: &[u8], reply: &mut [u8], out: &mut [u8]) -> usize
    requires { (reply.old ≡ replicate 32768 0) × (65536 ≤ length out.old) }
    ensures line { LinePromise
        (answer_request (lent_store lent.old) request.now)
        out.old result out.new
        (lent_store lent.new) }
    ensures loan { KeepsLoan lent.old lent.new }
{
    let verifier = [0u8; Served::VERIFIER];
    match compound::serve(frame_geometry(), lent, &verifier, request, reply) {
        Ok(served) => put_hex(&reply[..served.written], out),
        Err(refused) => put_refusal(refused.number(), out),
    }
}

// The same with a reply buffer of its own, which is cleared for a line that is served, and for no other.
fn serve_request(lent: &mut Lent<'_>, request: &[u8], out: &mut [u8]) -> usize
    requires { 65536 ≤ length out.old }
    ensures line { LinePromise
        (answer_request (lent_store lent.old) request.now)
        out.old result out.new
        (lent_store lent.new) }
    ensures loan { KeepsLoan lent.old lent.new }
{
    let mut reply = [0u8; Served::MIN_REPLY];
    serve_into(lent, request, &mut reply, out)
}

// The answer of a line, whose bytes go into `request`.
fn serve_digits(lent: &mut Lent<'_>, line: &[u8], request: &mut [u8], out: &mut [u8]) -> usize
    requires { (4096 ≤ length request.old) × (65536 ≤ length out.old) }
    ensures line { LinePromise
        (answer_line (lent_store lent.old) line.now)
        out.old result out.new
        (lent_store lent.new) }
    ensures loan { KeepsLoan lent.old lent.new }
{
    let Some(n) = request_bytes(line, request) else {
        return put_refusal(Request::REFUSED, out);
    };
    serve_request(lent, &request[..n], out)
}

/// Serves the line on the lent store and writes its answer's line at the start of `out`. Answers that line's length, or 0
/// where `out` is too short to take one.
#[tactic(auto, unfolding(crate::specs::LineCall::line_into))]
pub fn serve_line(lent: &mut Lent<'_>, line: &[u8], out: &mut [u8]) -> usize
    ensures line { LinePromise
        (line_into out.old (lent_store lent.old) line.now)
        out.old result out.new
        (lent_store lent.new) }
    ensures loan { KeepsLoan lent.old lent.new }
{
    if out.len() < MIN_OUT {
        return 0;
    }
    let mut request = [0u8; Request::MAX_BYTES];
    serve_digits(lent, line, &mut request, out)
}
