// The line that says the verdict on a recording: written by `Display` to any writer, which may fail, and by `put_verdict` to a
// lent buffer, which can't.
ghost use Rattle.std.specs.Prelude.{Some, ◌+◌, ◌≤◌};
ghost use Rattle.xdr.specs.Writing.{Wrote, HasRoom};
ghost use Rattle.frame.specs.Recording.{decimal};
ghost use Rattle.frame.specs.Printing.{of_verdict, printed, verdict_text, Printed};

use crate::judge::Verdict;
use std::fmt;
use xdr::Writer;

/// The verdict's line and its newline; nothing of a refused one.
impl fmt::Display for Verdict {
    ghost output = { λ v. Some (printed (of_verdict v)) };

    #[tactic(auto, unfolding(crate::specs::Recording::verdict_line), using(crate::proofs::PrintLaws::printing))]
    fn fmt<W: fmt::Write>(&self, f: &mut fmt::Formatter<W>) -> fmt::Result {
        match *self {
            Verdict::Same(pairs) => writeln!(f, "same {pairs}"),
            Verdict::Differs(pair, place) => writeln!(f, "{pair} {place}"),
            Verdict::Odd(pair) => writeln!(f, "odd {pair}"),
            Verdict::Refused => Ok(()),
        }
    }
}

#[tactic(auto, using(crate::proofs::PrintLaws::decimal_is))]
fn put_number(w: &mut Writer<'_>, n: u64)
    requires { HasRoom 20 w.old }
    ensures written { Wrote (decimal n) w.old w.new }
    ensures bound { w.new.at ≤ w.old.at + 20 }
{
    w.bytes(itoa::Buffer::new().format(n).as_bytes());
}

fn put_line(w: &mut Writer<'_>, v: Verdict)
    requires { HasRoom 42 w.old }
    ensures { Wrote (printed (of_verdict v)) w.old w.new }
{
    match v {
        Verdict::Same(pairs) => {
            w.bytes(b"same ");
            put_number(w, pairs);
            w.bytes(b"\n");
        }
        Verdict::Differs(pair, place) => {
            put_number(w, pair);
            w.bytes(b" ");
            put_number(w, place as u64);
            w.bytes(b"\n");
        }
        Verdict::Odd(pair) => {
            w.bytes(b"odd ");
            put_number(w, pair);
            w.bytes(b"\n");
        }
        Verdict::Refused => {}
    }
}

/// Writes the verdict's line and its newline at the start of `out`, and answers how many characters they have: none of a
/// refused one, and none where `out` has fewer than `Verdict::ROOM`.
#[tactic(auto, unfolding(crate::specs::Printing::verdict_text))]
pub fn put_verdict(v: Verdict, out: &mut [u8]) -> usize
    ensures { Printed (verdict_text v out.old) out.old result out.new }
{
    if out.len() < Verdict::ROOM {
        return 0;
    }
    let mut w = Writer { out, at: 0 };
    put_line(&mut w, v);
    w.at
}
