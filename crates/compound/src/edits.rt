// The body of the result of an edit that was done.
ghost use Rattle.std.specs.Prelude.{◌-◌, ◌^◌, ◌<◌};
ghost use Rattle.xdr.specs.Encode.{u64};
ghost use Rattle.xdr.specs.Writing.{Wrote, HasRoom};
ghost use Rattle.compound.specs.Shown.{edit_bytes};

use store::{Act, Edit};
use wire::{put_copied, put_written};
use xdr::Writer;

#[tactic(auto, using(xdr::proofs::WritingLaws::wrote_none))]
pub fn put_edit(edit: &Edit<'_>, verifier: u64, w: &mut Writer<'_>)
    requires small { edit.now.end - edit.now.off < 2 ^ 32 }
    requires room { HasRoom 32 w.old }
    ensures { Wrote (edit_bytes edit.now (u64 verifier)) w.old w.new }
{
    let n = edit.end.saturating_sub(edit.off);
    match edit.act {
        Act::Write(_) => put_written(w, n as u32, verifier),
        Act::Copy(_) => put_copied(w, n as u64, verifier),
        Act::Clone(_) | Act::Allocate | Act::Deallocate => {}
    }
}
