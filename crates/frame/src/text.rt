// The lines of a text that comes in pieces of any length: what is kept of a line, and the lines that end in a piece served.
ghost use Rattle.std.specs.Prelude.{◌≡◌, ◌+◌, ◌^◌, ◌<◌, ◌≤◌, length, take};
ghost use Rattle.tables.specs.Loans.{lent_store, KeepsLoan};
ghost use Rattle.rules.specs.Line.{answer_line};
ghost use Rattle.frame.specs.Text.{parts_of};
ghost use Rattle.frame.specs.Parts.{part_of};
ghost use Rattle.frame.specs.Reading.{Kept, Answered, reading, reading_of, read_part, read_parts, unready, read_text, read_end, ReadPromise, Stays};

use crate::hex::Request;
use crate::line::serve_line;
use crate::parts::{Part, Parts};
use tables::Lent;

/// After a call on a text: the characters taken of it, those kept of the line that has not ended, and those of the answers
/// that were written.
#[derive(Clone, Copy, Debug, PartialEq, Eq)]
pub struct Progress {
    pub taken: usize,
    pub kept: usize,
    pub written: usize,
}

impl Progress {
    /// Room for the longest answer and its newline.
    pub const ROOM: usize = 65537;
}

/// Adds a part of a line to what is kept of it, as far as it is kept.
pub fn keep(line: &mut [u8], kept: usize, text: &[u8]) -> usize
    requires { (kept ≤ 8193) × (8193 ≤ length line.old) }
    ensures { Kept (take kept line.old) text.now result line.new }
{
    let n = (Request::KEPT - kept).min(text.len());
    line[kept..kept + n].copy_from_slice(&text[..n]);
    kept + n
}

// A line's answer and a newline, at place `at` of `out`.
fn answer(lent: &mut Lent<'_>, line: &[u8], out: &mut [u8], at: usize) -> usize
    requires { at + 65537 ≤ length out.old }
    ensures answered { Answered
        (answer_line (lent_store lent.old) line.now)
        at out.old result out.new
        (lent_store lent.new) }
    ensures loan { KeepsLoan lent.old lent.new }
{
    let n = serve_line(lent, line, &mut out[at..]);
    out[at + n] = b'\n';
    at + n + 1
}

// Takes a part of a line. A line that ends there is answered.
fn serve_part(
    lent: &mut Lent<'_>,
    line: &mut [u8],
    out: &mut [u8],
    part: Part<'_>,
    p: Progress,
) -> Progress
    requires taken { p.taken + length part.text.now < 2 ^ 63 }
    requires kept { p.kept ≤ 8193 }
    requires line { 8193 ≤ length line.old }
    requires room { p.written + 65537 ≤ length out.old }
    ensures read_promise { ReadPromise
        (read_part (reading_of p line.old out.old (lent_store lent.old)) (part_of part.entry))
        result line.new out.old out.new
        (lent_store lent.new) }
    ensures kept_bound { result.kept ≤ 8193 }
    ensures loan { KeepsLoan lent.old lent.new }
{
    let kept = keep(line, p.kept, part.text);
    let taken = p.taken + part.text.len();
    if !part.ended {
        return Progress {
            taken,
            kept,
            written: p.written,
        };
    }
    Progress {
        taken: taken + 1,
        kept: 0,
        written: answer(lent, &line[..kept], out, p.written),
    }
}

// Takes part after part, as long as there is room for an answer.
fn serve_parts(
    lent: &mut Lent<'_>,
    line: &mut [u8],
    out: &mut [u8],
    text: &[u8],
    kept: usize,
) -> Progress
    requires { (kept ≤ 8193) × (8193 ≤ length line.old) }
    ensures read_promise { ReadPromise
        (read_parts (length out.old)
        (reading (lent_store lent.old) (take kept line.old))
        (parts_of text.now))
        result line.new out.old out.new
        (lent_store lent.new) }
    ensures loan { KeepsLoan lent.old lent.new }
{
    let mut parts = Parts { rest: text };
    let mut p = Progress {
        taken: 0,
        kept,
        written: 0,
    };
    while Progress::ROOM <= out.len() - p.written {
        let Some(part) = parts.next() else {
            return p;
        };
        p = serve_part(lent, line, out, part, p);
    }
    p
}

/// Serves the lines that end in a piece of text, and writes their answers, each with a newline, at the start of `out`. Of
/// the line that was begun, `kept` characters stand at the start of `line`, which has room for `Request::KEPT`; the answer
/// says how many stand there now. It stops where `out` has no room for an answer more.
#[tactic(auto, unfolding(crate::specs::Reading::read_text, crate::specs::Reading::unready), using(crate::proofs::TextLaws::take_min))]
pub fn serve_text(
    lent: &mut Lent<'_>,
    line: &mut [u8],
    out: &mut [u8],
    text: &[u8],
    kept: usize,
) -> Progress
    ensures read_promise { ReadPromise
        (read_text line.old kept out.old (lent_store lent.old) text.now)
        result line.new out.old out.new
        (lent_store lent.new) }
    ensures stays { Stays (unready line.old kept) line.old line.new }
    ensures loan { KeepsLoan lent.old lent.new }
{
    if line.len() < Request::KEPT || Request::KEPT < kept {
        return Progress {
            taken: 0,
            kept: kept.min(line.len()),
            written: 0,
        };
    }
    serve_parts(lent, line, out, text, kept)
}

/// The end of the text: a line that was begun ends there.
#[tactic(auto, unfolding(crate::specs::Reading::read_end))]
pub fn serve_end(lent: &mut Lent<'_>, line: &mut [u8], out: &mut [u8], kept: usize) -> Progress
    ensures read_promise { ReadPromise
        (read_end line.old kept out.old (lent_store lent.old))
        result line.new out.old out.new
        (lent_store lent.new) }
    ensures stays { Stays (unready line.old kept) line.old line.new }
    ensures loan { KeepsLoan lent.old lent.new }
{
    if kept == 0 {
        return Progress {
            taken: 0,
            kept: 0,
            written: 0,
        };
    }
    serve_text(lent, line, out, b"\n", kept)
}
