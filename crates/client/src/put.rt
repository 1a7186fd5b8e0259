// An operation written: its number, and its arguments by their layout.
ghost use Rattle.std.specs.Prelude.{◌≡◌, ◌%◌, ◌≤◌, ◌<◌, ◌+◌, ◌^◌, true, length};
ghost use Rattle.xdr.specs.Bytes.{part_of};
ghost use Rattle.xdr.specs.Writing.{Wrote, HasRoom};
ghost use Rattle.xdr.specs.Encode.{opaque_size};
ghost use Rattle.xdr.specs.Layout.{every};
ghost use Rattle.rules.specs.Operation.{op_bytes};
ghost use Rattle.wire.specs.Decoded.{meaning};
ghost use Rattle.wire.specs.declared.operation.Operation.{Operation};
ghost use Rattle.client.specs.Given.{lent_in, writable, args_bytes, ops_bytes};

use wire::{CloneArgs, CopyArgs, Operation, ReadArgs, RegionArgs, WriteArgs};
use xdr::{Span, Writer};

fn put_bitmap(w: &mut Writer<'_>, lent: &[u8], d: Span)
    requires words { (lent_in lent.now d ≡ true) × ((d.len % 4 ≡ 0) × (d.len ≤ 16)) }
    requires room { HasRoom (4 + d.len) w.old }
    ensures { Wrote (args_bytes lent.now (Operation.GetAttr d)) w.old w.new }
{
    w.u32((d.len / 4) as u32);
    w.bytes(xdr::part(lent, d));
}

#[tactic(auto, using(crate::proofs::WriteLaws::lengths))]
fn put_read(w: &mut Writer<'_>, lent: &[u8], a: ReadArgs)
    requires { HasRoom (length (part_of lent.now a.stateid) + 12) w.old }
    ensures { Wrote (args_bytes lent.now (Operation.Read a)) w.old w.new }
{
    w.bytes(xdr::part(lent, a.stateid));
    w.u64(a.offset);
    w.u32(a.count);
}

#[tactic(auto, using(crate::proofs::WriteLaws::lengths))]
fn put_region(w: &mut Writer<'_>, lent: &[u8], a: RegionArgs)
    requires { HasRoom (length (part_of lent.now a.stateid) + 16) w.old }
    ensures { Wrote (args_bytes lent.now (Operation.Allocate a)) w.old w.new }
{
    w.bytes(xdr::part(lent, a.stateid));
    w.u64(a.offset);
    w.u64(a.length);
}

#[tactic(auto, using(crate::proofs::WriteLaws::lengths))]
fn put_write(w: &mut Writer<'_>, lent: &[u8], a: WriteArgs)
    requires length { length (part_of lent.now a.data) < 2 ^ 32 }
    requires room { HasRoom (length (part_of lent.now a.stateid) + (12 + opaque_size (length (part_of lent.now a.data)))) w.old }
    ensures { Wrote (args_bytes lent.now (Operation.Write a)) w.old w.new }
{
    w.bytes(xdr::part(lent, a.stateid));
    w.u64(a.offset);
    w.u32(a.stable);
    w.opaque(xdr::part(lent, a.data));
}

#[tactic(auto, using(crate::proofs::WriteLaws::lengths))]
fn put_clone(w: &mut Writer<'_>, lent: &[u8], a: CloneArgs)
    requires { HasRoom (length (part_of lent.now a.source) + (length (part_of lent.now a.target) + 24)) w.old }
    ensures bytes { Wrote (args_bytes lent.now (Operation.Clone a)) w.old w.new }
    ensures place { w.new.at ≡ w.old.at + (length (part_of lent.now a.source) + (length (part_of lent.now a.target) + 24)) }
{
    w.bytes(xdr::part(lent, a.source));
    w.bytes(xdr::part(lent, a.target));
    w.u64(a.from);
    w.u64(a.to);
    w.u64(a.count);
}

// Without a source server.
#[tactic(auto, using(crate::proofs::WriteLaws::lengths))]
fn put_copy(w: &mut Writer<'_>, lent: &[u8], a: CopyArgs)
    requires { HasRoom (length (part_of lent.now a.clone.source) + (length (part_of lent.now a.clone.target) + 36)) w.old }
    ensures { Wrote (args_bytes lent.now (Operation.Copy a)) w.old w.new }
{
    put_clone(w, lent, a.clone);
    w.boolean(a.consecutive == 1);
    w.boolean(a.synchronous == 1);
    w.u32(0);
}

#[tactic(auto, using(crate::proofs::WriteLaws::args_lengths))]
fn put_args(w: &mut Writer<'_>, lent: &[u8], o: Operation)
    requires writable { writable lent.now o ≡ true }
    requires room { HasRoom (length (args_bytes lent.now o)) w.old }
    ensures { Wrote (args_bytes lent.now o) w.old w.new }
{
    match o {
        Operation::GetAttr(d) => put_bitmap(w, lent, d),
        Operation::GetFh | Operation::RestoreFh | Operation::SaveFh => (),
        Operation::PutFh(h) => w.opaque(xdr::part(lent, h)),
        Operation::Read(a) | Operation::ReadPlus(a) | Operation::Seek(a) => put_read(w, lent, a),
        Operation::Write(a) => put_write(w, lent, a),
        Operation::Allocate(a) | Operation::Deallocate(a) => put_region(w, lent, a),
        Operation::Copy(a) => put_copy(w, lent, a),
        Operation::Clone(a) => put_clone(w, lent, a),
    }
}

#[tactic(auto, using(crate::proofs::WriteLaws::op_length))]
fn put_operation(w: &mut Writer<'_>, lent: &[u8], o: Operation)
    requires writable { writable lent.now o ≡ true }
    requires room { HasRoom (length (op_bytes (meaning lent.now o))) w.old }
    ensures { Wrote (op_bytes (meaning lent.now o)) w.old w.new }
{
    w.u32(o.number());
    put_args(w, lent, o);
}

pub fn put_operations(w: &mut Writer<'_>, lent: &[u8], ops: &[Operation])
    requires writable { every (writable lent.now) ops.now ≡ true }
    requires room { HasRoom (length (ops_bytes lent.now ops.now)) w.old }
    ensures { Wrote (ops_bytes lent.now ops.now) w.old w.new }
{
    for o in ops {
        put_operation(w, lent, *o);
    }
}
