// Operations as fixed records of numbers: the operation's number, two spans and five numbers. client.h says what each operation has.
ghost use Rattle.std.specs.Prelude.{◌≡◌, ◌+◌, ◌≤◌, length};
ghost use Rattle.client.specs.Given.{WritePromise};
ghost use Rattle.client.specs.Records.{record_at, record_op, given_records, clone_in};

use crate::request::{Refusal, write_request};
use wire::{CloneArgs, CopyArgs, Operation, ReadArgs, RegionArgs, WriteArgs};
use xdr::Span;

#[derive(Clone, Copy, Debug, PartialEq, Eq)]
pub struct OpRecord {
    pub number: u64,
    pub first: Span,
    pub second: Span,
    pub a: u64,
    pub b: u64,
    pub c: u64,
    pub d: u64,
    pub e: u64,
}

impl OpRecord {
    /// Numbers of a record.
    pub const NUMBERS: usize = 10;

    /// Numbers of twelve records, which is the most.
    pub const MAX_NUMBERS: usize = 120;
}

// The record at place `at` of the numbers.
fn record_at(ns: &[u64], at: usize) -> OpRecord
    requires { at + 10 ≤ length ns.now }
    ensures { result ≡ record_at ns.now at }
{
    OpRecord {
        number: ns[at],
        first: Span {
            start: ns[at + 1] as usize,
            len: ns[at + 2] as usize,
        },
        second: Span {
            start: ns[at + 3] as usize,
            len: ns[at + 4] as usize,
        },
        a: ns[at + 5],
        b: ns[at + 6],
        c: ns[at + 7],
        d: ns[at + 8],
        e: ns[at + 9],
    }
}

// Of CLONE and COPY.
fn clone_in(r: OpRecord) -> CloneArgs
    ensures { result ≡ clone_in r }
{
    CloneArgs {
        source: r.first,
        target: r.second,
        from: r.a,
        to: r.b,
        count: r.c,
    }
}

// Of READ, READ_PLUS and SEEK.
fn read_in(r: OpRecord, count: u32) -> ReadArgs
    ensures { result ≡ record { stateid = r.first; offset = r.a; count = count } }
{
    ReadArgs {
        stateid: r.first,
        offset: r.a,
        count,
    }
}

// Of ALLOCATE and DEALLOCATE.
fn region_in(r: OpRecord) -> RegionArgs
    ensures { result ≡ record { stateid = r.first; offset = r.a; length = r.b } }
{
    RegionArgs {
        stateid: r.first,
        offset: r.a,
        length: r.b,
    }
}

// The operation of a record, if it has one.
fn operation_of(r: OpRecord) -> Option<Operation>
    ensures { result ≡ record_op r }
{
    let word = u32::try_from(r.b).ok();
    match u32::try_from(r.number).ok()? {
        Operation::GETATTR => Some(Operation::GetAttr(r.first)),
        Operation::GETFH => Some(Operation::GetFh),
        Operation::PUTFH => Some(Operation::PutFh(r.first)),
        Operation::READ => Some(Operation::Read(read_in(r, word?))),
        Operation::RESTOREFH => Some(Operation::RestoreFh),
        Operation::SAVEFH => Some(Operation::SaveFh),
        Operation::WRITE => Some(Operation::Write(WriteArgs {
            stateid: r.first,
            offset: r.a,
            stable: word?,
            data: r.second,
        })),
        Operation::ALLOCATE => Some(Operation::Allocate(region_in(r))),
        Operation::COPY => Some(Operation::Copy(CopyArgs {
            clone: clone_in(r),
            consecutive: u32::try_from(r.d).ok()?,
            synchronous: u32::try_from(r.e).ok()?,
        })),
        Operation::DEALLOCATE => Some(Operation::Deallocate(region_in(r))),
        Operation::READ_PLUS => Some(Operation::ReadPlus(read_in(r, word?))),
        Operation::SEEK => Some(Operation::Seek(read_in(r, word?))),
        Operation::CLONE => Some(Operation::Clone(clone_in(r))),
        _ => None,
    }
}

/// A request written from a tag and records.
#[tactic(auto, using(crate::proofs::RecordLaws::no_records, crate::proofs::RecordLaws::many_records, crate::proofs::RecordLaws::wrong_record, crate::proofs::RecordLaws::left_none))]
pub fn write_records(tag: &[u8], ns: &[u64], lent: &[u8], out: &mut [u8]) -> Result<usize, Refusal>
    ensures { WritePromise tag.now (given_records lent.now ns.now) out.old result out.new }
{
    if ns.len() % OpRecord::NUMBERS != 0 || ns.len() > OpRecord::MAX_NUMBERS {
        return Err(Refusal::NotWritable);
    }
    let count = ns.len() / OpRecord::NUMBERS;
    let mut ops = [Operation::GetFh; Operation::MAX_OPS as usize];
    for i in 0..count {
        ops[i] = operation_of(record_at(ns, OpRecord::NUMBERS * i)).ok_or(Refusal::NotWritable)?;
    }
    write_request(tag, &ops[..count], lent, out)
}
