// Reads a recording, a request's line and a reply's line by turns, runs the requests on the program's store and says whether
// the replies are the same: `same N`, `PAIR PLACE` or `odd N`. At the first difference it reads no further.
#![tactic(auto)]

ghost use Rattle.std.specs.Prelude.{◌≡◌, ◌^◌, ◌<◌, ◌≤◌, ◌⊎◌, true, length, take, IfOk, IfSome, OnOk, MatchOption};
ghost use Rattle.std.specs.Io.KnownBytes.{Appends, Consumes, Keeps, IsAtEnd};
ghost use Rattle.rules.specs.Store.{empty_store};
ghost use Rattle.rules.specs.Line.{frame_geometry};
ghost use Rattle.tables.specs.Loans.{lent_store};
ghost use Rattle.frame.specs.Judging.{is_parted};
ghost use Rattle.frame.specs.Printing.{of_verdict, printed};
ghost use Rattle.replay.specs.Replayed.{told_of};

use frame::{Frame, Judge, Request, Verdict};
use std::io;
use std::io::{Read, Write};
use tables::Lent;

// Bytes of input read at a time.
const INPUT: usize = 65536;

// How many bytes of the recording a read brings; nothing at its end, and nothing is read where no more is wanted.
fn read_on<R: Read>(from: &mut R, input: &mut [u8], judge: Judge) -> io::Result<Option<usize>>
    requires { 0 < length input.old }
    ensures within { IfOk result (λ o. IfSome o (λ n. n ≤ length input.new)) }
    ensures some { IfOk result (λ o. IfSome o (λ n. 0 < length (take n input.new))) }
    ensures read { IfOk result (λ o. MatchOption o
        (Keeps (R.remaining from.old) (R.remaining from.new) × ((is_parted judge.step ≡ true) ⊎ IsAtEnd (R.remaining from.new)))
        (λ n. Consumes (R.remaining from.old) (R.remaining from.new) (take n input.new))) }
{
    if frame::decided(judge) {
        return Ok(None);
    }
    let n = from.read(input)?;
    if n == 0 {
        return Ok(None);
    }
    Ok(Some(n))
}

// The verdict's line, in one write.
fn say<W: Write>(to: &mut W, verdict: Verdict) -> io::Result<()>
    ensures { OnOk result (Appends (W.contents to.old) (W.contents to.new) (printed (of_verdict verdict))) }
{
    let mut text = [0u8; Verdict::ROOM];
    let n = frame::put_verdict(verdict, &mut text);
    to.write_all(&text[..n])
}

// The verdict on the whole recording is written. A read that failed leaves none. A proved loop has to end, and nothing says that
// the input does: no run uses up the turns, and none of an input of fewer bytes does.
fn judge_all<R: Read, W: Write>(
    from: &mut R,
    to: &mut W,
    lent: &mut Lent<'_>,
    line: &mut [u8],
    out: &mut [u8],
    input: &mut [u8],
) -> io::Result<()>
    requires empty { lent_store lent.old ≡ empty_store frame_geometry }
    requires line { 8193 ≤ length line.old }
    requires out { 65536 ≤ length out.old }
    requires input { 0 < length input.old }
    ensures { OnOk result (IfSome (R.remaining from.old) (λ text.
        length text < 18446744073709551615 → Appends (W.contents to.old) (W.contents to.new) (told_of text))) }
{
    let mut judge = Judge::new();
    for _ in 0..u64::MAX {
        let Some(n) = read_on(from, input, judge)? else {
            return say(to, frame::judged(judge, line, out));
        };
        judge = frame::judge_text(lent, line, out, &input[..n], judge);
    }
    Ok(())
}

// The store is empty: its tables are zero.
#[tactic(auto, unfolding(rules::specs::Store::empty_store))]
fn main(rt: HostRuntime) -> io::Result<()> {
    let mut sizes = [0u64; Frame::SIZES];
    let mut words = [0u32; Frame::WORDS];
    let mut memory = [0u8; Frame::MEMORY];
    let mut lent = Lent {
        sizes: &mut sizes,
        words: &mut words,
        memory: &mut memory,
    };
    let mut line = [0u8; Request::KEPT];
    let mut out = [0u8; frame::MIN_OUT];
    let mut input = [0u8; INPUT];
    judge_all(
        &mut rt.stdin(),
        &mut rt.stdout(),
        &mut lent,
        &mut line,
        &mut out,
        &mut input,
    )
}
