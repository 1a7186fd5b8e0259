// Reads lines of hexadecimal, one frame a line, and writes the answer of each, in order (document 01, "A day's frames").
// The answers are written when what was read is served, so that whoever waits for one has it.
#![tactic(auto)]

ghost use Rattle.std.specs.Prelude.{◌≡◌, ◌<◌, ◌≤◌, [], length, take, true, IfOk, IfSome, OnOk, OnErr, MatchOption};
ghost use Rattle.std.specs.Io.KnownBytes.{Appends};
ghost use Rattle.tables.specs.Loans.{lent_store};
ghost use Rattle.frame.specs.Reading.{Taken, answers, answers_to, read_end};
ghost use Rattle.frames.specs.Answering.{Answered, Finished, Went};
ghost use Rattle.frames.specs.Stopped.{Stopped, Failed};

use frame::{Frame, Request};
use std::io;
use std::io::{Read, Write};
use tables::Lent;

// Bytes of input read at a time, and room for answers.
const INPUT: usize = 65536;

const ANSWERS: usize = 131072;

// Serves what was read, all of it, in as many calls as the answers take, and says how many characters are kept of a line
// whose end is not read yet. It stops where the answers can't be written.
fn serve_piece<W: Write>(
    to: &mut W,
    lent: &mut Lent<'_>,
    line: &mut [u8],
    out: &mut [u8],
    piece: &[u8],
    kept: usize,
) -> io::Result<usize>
    requires { (length line.old ≡ 8193) × ((65537 ≤ length out.old) × ((kept ≤ 8193) × (length piece.now ≤ 65536))) }
    ensures kept_bound { IfOk result (λ k. k ≤ 8193) }
    ensures taken { IfOk result (λ k. Taken true
        (lent_store lent.old) (take kept line.old) piece.now
        (lent_store lent.new) (take k line.new)) }
    ensures answered { IfOk result (λ k. Answered (W.contents to.old) (W.contents to.new)
        (lent_store lent.old) (take kept line.old) piece.now
        (lent_store lent.new) (take k line.new) []) }
    ensures stopped { OnErr result (Stopped
        (lent_store lent.old) (take kept line.old) piece.now
        (lent_store lent.new) line.new) }
{
    let mut kept = kept;
    let mut at = 0;
    while at < piece.len() {
        let p = frame::serve_text(lent, line, out, &piece[at..], kept);
        at += p.taken;
        to.write_all(&out[..p.written])?;
        kept = p.kept;
    }
    Ok(kept)
}

// The end of the input.
fn serve_end<W: Write>(
    to: &mut W,
    lent: &mut Lent<'_>,
    line: &mut [u8],
    out: &mut [u8],
    kept: usize,
) -> io::Result<()>
    requires { (length line.old ≡ 8193) × ((65537 ≤ length out.old) × (kept ≤ 8193)) }
    ensures store { lent_store lent.new ≡ (read_end line.old kept out.old (lent_store lent.old)).store }
    ensures answered { OnOk result (Appends (W.contents to.old) (W.contents to.new) (answers (lent_store lent.old) (take kept line.old) [])) }
{
    let p = frame::serve_end(lent, line, out, kept);
    to.write_all(&out[..p.written])
}

// Reads once, and serves what came: nothing at the end of the input.
fn serve_some<R: Read, W: Write>(
    from: &mut R,
    to: &mut W,
    lent: &mut Lent<'_>,
    line: &mut [u8],
    out: &mut [u8],
    input: &mut [u8],
    kept: usize,
) -> io::Result<Option<usize>>
    requires { (length line.old ≡ 8193) × ((65537 ≤ length out.old) × ((kept ≤ 8193) × ((0 < length input.old) × (length input.old ≤ 65536)))) }
    ensures kept_bound { IfOk result (λ o. IfSome o (λ k. k ≤ 8193)) }
    ensures answered { IfOk result (λ o. MatchOption o
        (Finished (R.remaining from.old) (R.remaining from.new) (W.contents to.old) (W.contents to.new) (lent_store lent.old) (take kept line.old))
        (λ k. Went (R.remaining from.old) (R.remaining from.new) (W.contents to.old) (W.contents to.new)
        (lent_store lent.old) (take kept line.old) (lent_store lent.new) (take k line.new))) }
    ensures failed { OnErr result (Failed
        (lent_store lent.old) line.old kept out.old input.new
        (lent_store lent.new) line.new) }
{
    let n = from.read(input)?;
    if n == 0 {
        serve_end(to, lent, line, out, kept)?;
        return Ok(None);
    }
    let kept = serve_piece(to, lent, line, out, &input[..n], kept)?;
    Ok(Some(kept))
}

// What was read to the end is answered, a line for each of its lines. A proved loop has to end, and nothing says that the
// input does: no run uses up the turns, and none of an input of fewer bytes does.
fn serve_all<R: Read, W: Write>(
    from: &mut R,
    to: &mut W,
    lent: &mut Lent<'_>,
    line: &mut [u8],
    out: &mut [u8],
    input: &mut [u8],
) -> io::Result<()>
    requires { (length line.old ≡ 8193) × ((65537 ≤ length out.old) × ((0 < length input.old) × (length input.old ≤ 65536))) }
    ensures { OnOk result (IfSome (R.remaining from.old) (λ text.
        length text < 18446744073709551615 → Appends (W.contents to.old) (W.contents to.new) (answers_to (lent_store lent.old) text))) }
{
    let mut kept = 0;
    for _ in 0..u64::MAX {
        let Some(k) = serve_some(from, to, lent, line, out, input, kept)? else {
            return Ok(());
        };
        kept = k;
    }
    Ok(())
}

// The store is empty: its tables are zero.
fn main(rt: HostRuntime) -> io::Result<()> {
    let mut sizes = [0u64; Frame::SIZES];
    let mut words = [0u32; Frame::WORDS];
    let mut memory = [0u8; Frame::MEMORY];
    let mut lent = Lent {
        sizes: &mut sizes,
        words: &mut words,
        memory: &mut memory,
    };
    let mut line = [0u8; Request::KEPT];
    let mut out = [0u8; ANSWERS];
    let mut input = [0u8; INPUT];
    serve_all(
        &mut rt.stdin(),
        &mut rt.stdout(),
        &mut lent,
        &mut line,
        &mut out,
        &mut input,
    )
}
