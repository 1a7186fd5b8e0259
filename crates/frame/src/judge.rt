// A recording judged as its text comes: requests are run, and their answers compared with the replies recorded.
ghost use Rattle.std.specs.Prelude.{◌≡◌, true, ◌≤◌, length, take};
ghost use Rattle.frame.specs.declared.judge.Step.{Step};
ghost use Rattle.tables.specs.Loans.{lent_store, KeepsLoan};
ghost use Rattle.frame.specs.Recording.{lower, alike};
ghost use Rattle.frame.specs.Parts.{part_of};
ghost use Rattle.frame.specs.Judging.{next, place_in, Asks, Replies, Answers, judging_of, judge_part, judge_text, judge_call, within, fits, is_parted, JudgePromise, Untouched};
ghost use Rattle.frame.specs.Printing.{of_verdict, verdict_call};

use crate::blocks::same_blocks;
use crate::hex::Request;
use crate::line::{MIN_OUT, serve_line};
use crate::parts::{Part, Parts};
use crate::text::keep;
use tables::Lent;

/// Where a pair stands. `Asking(k)`: k characters are kept of the request's line, which has not ended. `Asked(k)`: it has,
/// and nothing of the reply's line came. `Comparing(n, at)`: the answer has n characters, and `at` of the reply's line came,
/// all alike. `Parted(place)`: the byte of the first difference.
#[derive(Clone, Copy, Debug, PartialEq, Eq)]
pub enum Step {
    Asking(usize),
    Asked(usize),
    Comparing(usize, usize),
    Parted(usize),
}

/// The verdict on a recording. `Differs(pair, place)`: the first pair that differs, counted from 1, and the byte. `Refused`:
/// the numbers or the buffers are not those of a recording that is judged.
#[derive(Clone, Copy, Debug, PartialEq, Eq)]
pub enum Verdict {
    Same(u64),
    Differs(u64, usize),
    Odd(u64),
    Refused,
}

impl Verdict {
    /// The characters of a verdict's line at most: two numbers of 20 digits, a space and a newline.
    pub const ROOM: usize = 42;
}

/// How many pairs are the same, and where the next one stands.
#[derive(Clone, Copy, Debug, PartialEq, Eq)]
pub struct Judge {
    pairs: u64,
    step: Step,
}

impl Judge {
    /// Nothing of a recording is read yet.
    pub fn new() -> Judge
        ensures { result ≡ record { pairs = 0; step = Step.Asking 0 } }
    {
        Judge {
            pairs: 0,
            step: Step::Asking(0),
        }
    }
}

// The next number; 2^64 - 1 stays.
fn next(n: u64) -> u64
    ensures { result ≡ next n }
{
    n.saturating_add(1)
}

fn lower(c: u8) -> u8
    ensures { result ≡ lower c }
{
    match c {
        b'A'..=b'F' => c + 32,
        _ => c,
    }
}

// How many characters both begin with alike, in either letter case.
fn alike(a: &[u8], b: &[u8]) -> usize
    ensures { result ≡ alike a.now b.now }
{
    let n = a.len().min(b.len());
    for i in same_blocks(a, b, n)..n {
        if lower(a[i]) != lower(b[i]) {
            return i;
        }
    }
    n
}

// The byte where a line parts from the answer after n characters; 0 where the answer is a refusal.
#[tactic(auto, unfolding(crate::specs::Judging::place_in))]
fn place_in(answer: &[u8], n: usize) -> usize
    ensures { result ≡ place_in answer.now n }
{
    match answer {
        [b'-', ..] => 0,
        _ => n / 2,
    }
}

// A part of the request's line.
#[tactic(auto, unfolding(crate::specs::Judging::asks, crate::specs::Judging::judging_of))]
fn asks(line: &mut [u8], kept: usize, part: Part<'_>, pairs: u64) -> Judge
    requires { (kept ≤ 8193) × (8193 ≤ length line.old) }
    ensures { Asks pairs (take kept line.old) (part_of part.entry) result line.new }
{
    let kept = keep(line, kept, part.text);
    let step = if part.ended {
        Step::Asked(kept)
    } else {
        Step::Asking(kept)
    };
    Judge { pairs, step }
}

// A part of the reply's line, of which `at` characters came, against the answer.
fn replies(answer: &[u8], at: usize, part: Part<'_>, pairs: u64) -> Judge
    requires { (at ≤ length answer.now) × (length answer.now ≤ 65536) }
    ensures { Replies pairs answer.now at (part_of part.entry) result }
{
    let n = answer.len();
    let k = alike(&answer[at..], part.text);
    if k < part.text.len() {
        let step = Step::Parted(place_in(answer, at + k));
        return Judge { pairs, step };
    }
    if !part.ended {
        let step = Step::Comparing(n, at + k);
        return Judge { pairs, step };
    }
    if at + k < n {
        let step = Step::Parted(place_in(answer, at + k));
        return Judge { pairs, step };
    }
    Judge {
        pairs: next(pairs),
        step: Step::Asking(0),
    }
}

// The first part of the reply's line: the request is run.
fn answers(lent: &mut Lent<'_>, request: &[u8], out: &mut [u8], part: Part<'_>, pairs: u64) -> Judge
    requires { 65536 ≤ length out.old }
    ensures answers { Answers (lent_store lent.old) pairs request.now (part_of part.entry) result out.new
        (lent_store lent.new) }
    ensures loan { KeepsLoan lent.old lent.new }
{
    let n = serve_line(lent, request, out);
    replies(&out[..n], 0, part, pairs)
}

// A part of a line.
#[tactic(auto, unfolding(crate::specs::Judging::fits, crate::specs::Judging::judge_part, crate::specs::Judging::judging_of), using(crate::proofs::JudgeLaws::front_again))]
fn judge_part(
    lent: &mut Lent<'_>,
    line: &mut [u8],
    out: &mut [u8],
    part: Part<'_>,
    j: Judge,
) -> Judge
    requires { fits j line.old out.old ≡ true }
    ensures judge_promise { JudgePromise
        (judge_part (judging_of j line.old out.old (lent_store lent.old)) (part_of part.entry))
        j result line.new out.new
        (lent_store lent.new) }
    ensures loan { KeepsLoan lent.old lent.new }
{
    match j.step {
        Step::Asking(k) => asks(line, k, part, j.pairs),
        Step::Asked(k) => answers(lent, &line[..k], out, part, j.pairs),
        Step::Comparing(n, at) => replies(&out[..n], at, part, j.pairs),
        Step::Parted(_) => j,
    }
}

// Part after part.
fn judge_parts(lent: &mut Lent<'_>, line: &mut [u8], out: &mut [u8], text: &[u8], j: Judge) -> Judge
    requires { fits j line.old out.old ≡ true }
    ensures judge_promise { JudgePromise
        (judge_text (judging_of j line.old out.old (lent_store lent.old)) text.now)
        j result line.new out.new
        (lent_store lent.new) }
    ensures loan { KeepsLoan lent.old lent.new }
{
    let mut judge = j;
    let mut parts = Parts { rest: text };
    while let Some(part) = parts.next() {
        judge = judge_part(lent, line, out, part, judge);
    }
    judge
}

// The numbers lie within the line and the answer.
fn within(step: Step) -> bool
    ensures { result ≡ within step }
{
    match step {
        Step::Asking(k) | Step::Asked(k) => k <= Request::KEPT,
        Step::Comparing(n, at) => at <= n && n <= MIN_OUT,
        Step::Parted(_) => true,
    }
}

// The same, and the buffers have room for a line and an answer.
#[tactic(auto, unfolding(crate::specs::Judging::fits))]
fn fits(j: Judge, line: &[u8], out: &[u8]) -> bool
    ensures { result ≡ fits j line.now out.now }
{
    Request::KEPT <= line.len() && MIN_OUT <= out.len() && within(j.step)
}

/// Judges a piece of a recording's text on the lent store. `line` keeps a request's line, with room for `Request::KEPT`
/// characters, and `out` the answer, with room for `MIN_OUT`; both go with the answer to the next call.
#[tactic(auto, unfolding(crate::specs::Judging::judge_call))]
pub fn judge_text(
    lent: &mut Lent<'_>,
    line: &mut [u8],
    out: &mut [u8],
    text: &[u8],
    j: Judge,
) -> Judge
    ensures judge_promise { JudgePromise
        (judge_call j line.old out.old (lent_store lent.old) text.now)
        j result line.new out.new
        (lent_store lent.new) }
    ensures untouched { Untouched (fits j line.old out.old) j result
        line.old line.new out.old out.new }
    ensures loan { KeepsLoan lent.old lent.new }
{
    if !fits(j, line, out) {
        return j;
    }
    judge_parts(lent, line, out, text, j)
}

/// Whether a difference was found, so that the rest of the recording says nothing.
pub fn decided(j: Judge) -> bool
    ensures { result ≡ is_parted j.step }
{
    matches!(j.step, Step::Parted(_))
}

/// The verdict where the recording ends. A request without a reply is not run.
#[tactic(auto, unfolding(crate::specs::Judging::fits, crate::specs::Judging::verdict_by, crate::specs::Printing::verdict_call))]
pub fn judged(j: Judge, line: &[u8], out: &[u8]) -> Verdict
    ensures { of_verdict result ≡ verdict_call j line.now out.now }
{
    if !fits(j, line, out) {
        return Verdict::Refused;
    }
    match j.step {
        Step::Asking(0) => Verdict::Same(j.pairs),
        Step::Asking(_) | Step::Asked(_) => Verdict::Odd(next(j.pairs)),
        Step::Comparing(n, at) if at < n => {
            Verdict::Differs(next(j.pairs), place_in(&out[..n], at))
        }
        Step::Comparing(_, _) => Verdict::Same(next(j.pairs)),
        Step::Parted(place) => Verdict::Differs(next(j.pairs), place),
    }
}
