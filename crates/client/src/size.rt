// How long an operation is as written, its number included; nothing where it can't be written.
ghost use Rattle.std.specs.Prelude.{◌≡◌, ◌+◌, ◌*◌, ◌^◌, ◌≤◌, length, IfSome};
ghost use Rattle.wire.specs.declared.operation.Operation.{Operation};
ghost use Rattle.client.specs.Given.{lent_in, stateid_ok, op_size, ops_size};

use crate::request::Request;
use wire::{CopyArgs, Operation, WriteArgs};
use xdr::{Reader, Span};

fn is_lent(lent: &[u8], d: Span) -> bool
    ensures { result ≡ lent_in lent.now d }
{
    d.start <= lent.len() && d.len <= lent.len() - d.start
}

fn stateid_ok(lent: &[u8], d: Span) -> bool
    ensures { result ≡ stateid_ok lent.now d }
{
    d.len == Operation::STATEID && is_lent(lent, d)
}

#[tactic(auto, using(crate::proofs::WriteLaws::get_attr_size))]
fn bitmap_size(lent: &[u8], d: Span) -> Option<usize>
    ensures { result ≡ op_size lent.now (Operation.GetAttr d) }
{
    if d.len > Request::MAX_BITMAP || d.len % 4 != 0 || !is_lent(lent, d) {
        return None;
    }
    Some(8 + d.len)
}

#[tactic(auto, using(crate::proofs::WriteLaws::put_fh_size))]
fn handle_size(lent: &[u8], h: Span) -> Option<usize>
    ensures { result ≡ op_size lent.now (Operation.PutFh h) }
{
    if h.len > Operation::MAX_HANDLE as usize || !is_lent(lent, h) {
        return None;
    }
    Some(8 + (h.len + xdr::padding(h.len)))
}

#[tactic(auto, using(crate::proofs::WriteLaws::write_size))]
fn write_size(lent: &[u8], a: WriteArgs) -> Option<usize>
    ensures { result ≡ op_size lent.now (Operation.Write a) }
{
    let len = a.data.len;
    if a.stable > Operation::MAX_STABLE || len > Reader::MAX_LENGTH as usize {
        return None;
    }
    if !stateid_ok(lent, a.stateid) || !is_lent(lent, a.data) {
        return None;
    }
    Some(36 + (len + xdr::padding(len)))
}

#[tactic(auto, using(crate::proofs::WriteLaws::copy_size))]
fn copy_size(lent: &[u8], a: CopyArgs) -> Option<usize>
    ensures { result ≡ op_size lent.now (Operation.Copy a) }
{
    if a.consecutive > 1 || a.synchronous > 1 {
        return None;
    }
    (stateid_ok(lent, a.clone.source) && stateid_ok(lent, a.clone.target)).then_some(72)
}

#[tactic(auto, using(crate::proofs::WriteLaws::op_sizes))]
fn op_size(lent: &[u8], o: Operation) -> Option<usize>
    ensures value { result ≡ op_size lent.now o }
    ensures bound { IfSome result (λ n. n ≤ 2 ^ 32 + 38) }
{
    match o {
        Operation::GetAttr(d) => bitmap_size(lent, d),
        Operation::GetFh | Operation::RestoreFh | Operation::SaveFh => Some(4),
        Operation::PutFh(h) => handle_size(lent, h),
        Operation::Read(a) | Operation::ReadPlus(a) | Operation::Seek(a) => {
            stateid_ok(lent, a.stateid).then_some(32)
        }
        Operation::Write(a) => write_size(lent, a),
        Operation::Allocate(a) | Operation::Deallocate(a) => {
            stateid_ok(lent, a.stateid).then_some(36)
        }
        Operation::Copy(a) => copy_size(lent, a),
        Operation::Clone(a) => {
            (stateid_ok(lent, a.source) && stateid_ok(lent, a.target)).then_some(60)
        }
    }
}

/// How long at most twelve operations are.
#[tactic(auto, using(crate::proofs::RequestLaws::left_writable, crate::proofs::RequestLaws::left_length), unfolding(crate::specs::Given::op_size))]
pub fn ops_size(lent: &[u8], ops: &[Operation]) -> Option<usize>
    requires { length ops.now ≤ 12 }
    ensures value { result ≡ ops_size lent.now ops.now }
    ensures bound { IfSome result (λ n. n ≤ 12 * (2 ^ 32 + 38)) }
{
    let mut total = 0;
    for o in ops {
        total += op_size(lent, *o)?;
    }
    Some(total)
}
