// Readers of a request: the arguments of each layout, an operation, the header. They read from any place, one past the end too.
ghost use Rattle.std.specs.Prelude.{◌≡◌, IsErrOf, OnErr};
ghost use Rattle.xdr.specs.Reading.{parsed, answered};
ghost use Rattle.rules.specs.Fault.{args_by, fault_at};
ghost use Rattle.rules.specs.Operation.{handle_args, bitmap_args, read_args, write_args, region_args, clone_args, copy_args, readers, find, unserved, item_at, header};
ghost use Rattle.wire.specs.Decoded.{handle_view, bitmap_view, read_view, write_view, region_view, clone_view, copy_view, read_of, ending_of, item_of, fault_in, header_of};
ghost use Rattle.wire.specs.declared.status.Status.{Status};

use crate::operation::{
    CloneArgs, CopyArgs, Ending, Header, Operation, ReadArgs, RegionArgs, WriteArgs,
};
use crate::status::Status;
use xdr::{Reader, Span};

#[tactic(auto, unfolding(xdr::specs::Decode::opaque_up_to))]
fn handle_args(r: &mut Reader<'_>) -> Result<Span, Status>
    ensures value { answered (handle_view r.old.bytes.now) result r.new.at ≡ handle_args.read r.old.bytes.now r.old.at }
    ensures status { OnErr result (IsErrOf result Status.BadXdr) }
    ensures bytes { r.new.bytes ≡ r.old.bytes }
{
    let Some(handle) = r.opaque(Operation::MAX_HANDLE) else {
        return Err(Status::BadXdr);
    };
    Ok(handle)
}

// The span has the words.
#[tactic(auto, unfolding(xdr::specs::Decode::array_up_to))]
fn bitmap_args(r: &mut Reader<'_>) -> Result<Span, Status>
    ensures value { answered (bitmap_view r.old.bytes.now) result r.new.at ≡ bitmap_args.read r.old.bytes.now r.old.at }
    ensures status { OnErr result (IsErrOf result Status.BadXdr) }
    ensures bytes { r.new.bytes ≡ r.old.bytes }
{
    let Some(words) = r.array(Operation::MAX_BITMAP) else {
        return Err(Status::BadXdr);
    };
    Ok(words)
}

#[tactic(auto, unfolding(xdr::specs::Decode::fixed))]
fn read_args(r: &mut Reader<'_>) -> Result<ReadArgs, Status>
    ensures value { answered (read_view r.old.bytes.now) result r.new.at ≡ read_args.read r.old.bytes.now r.old.at }
    ensures status { OnErr result (IsErrOf result Status.BadXdr) }
    ensures bytes { r.new.bytes ≡ r.old.bytes }
{
    let Some(stateid) = r.fixed(Operation::STATEID) else {
        return Err(Status::BadXdr);
    };
    let Some(offset) = r.u64() else {
        return Err(Status::BadXdr);
    };
    let Some(count) = r.u32() else {
        return Err(Status::BadXdr);
    };
    Ok(ReadArgs {
        stateid,
        offset,
        count,
    })
}

#[tactic(auto, unfolding(xdr::specs::Decode::fixed, xdr::specs::Decode::opaque_up_to))]
fn write_args(r: &mut Reader<'_>) -> Result<WriteArgs, Status>
    ensures value { answered (write_view r.old.bytes.now) result r.new.at ≡ write_args.read r.old.bytes.now r.old.at }
    ensures status { OnErr result (IsErrOf result Status.BadXdr) }
    ensures bytes { r.new.bytes ≡ r.old.bytes }
{
    let Some(stateid) = r.fixed(Operation::STATEID) else {
        return Err(Status::BadXdr);
    };
    let Some(offset) = r.u64() else {
        return Err(Status::BadXdr);
    };
    let Some(stable) = r.up_to(Operation::MAX_STABLE) else {
        return Err(Status::BadXdr);
    };
    let Some(data) = r.opaque(Reader::MAX_LENGTH) else {
        return Err(Status::BadXdr);
    };
    Ok(WriteArgs {
        stateid,
        offset,
        stable,
        data,
    })
}

#[tactic(auto, unfolding(xdr::specs::Decode::fixed))]
fn region_args(r: &mut Reader<'_>) -> Result<RegionArgs, Status>
    ensures value { answered (region_view r.old.bytes.now) result r.new.at ≡ region_args.read r.old.bytes.now r.old.at }
    ensures status { OnErr result (IsErrOf result Status.BadXdr) }
    ensures bytes { r.new.bytes ≡ r.old.bytes }
{
    let Some(stateid) = r.fixed(Operation::STATEID) else {
        return Err(Status::BadXdr);
    };
    let Some(offset) = r.u64() else {
        return Err(Status::BadXdr);
    };
    let Some(length) = r.u64() else {
        return Err(Status::BadXdr);
    };
    Ok(RegionArgs {
        stateid,
        offset,
        length,
    })
}

#[tactic(auto, unfolding(xdr::specs::Decode::fixed))]
fn clone_args(r: &mut Reader<'_>) -> Result<CloneArgs, Status>
    ensures value { answered (clone_view r.old.bytes.now) result r.new.at ≡ clone_args.read r.old.bytes.now r.old.at }
    ensures status { OnErr result (IsErrOf result Status.BadXdr) }
    ensures bytes { r.new.bytes ≡ r.old.bytes }
{
    let Some(source) = r.fixed(Operation::STATEID) else {
        return Err(Status::BadXdr);
    };
    let Some(target) = r.fixed(Operation::STATEID) else {
        return Err(Status::BadXdr);
    };
    let Some(from) = r.u64() else {
        return Err(Status::BadXdr);
    };
    let Some(to) = r.u64() else {
        return Err(Status::BadXdr);
    };
    let Some(count) = r.u64() else {
        return Err(Status::BadXdr);
    };
    Ok(CloneArgs {
        source,
        target,
        from,
        to,
        count,
    })
}

// The arguments, and how many source servers follow; these are not read.
fn copy_args(r: &mut Reader<'_>) -> Result<(CopyArgs, u32), Status>
    ensures value { answered (copy_view r.old.bytes.now) result r.new.at ≡ copy_args.read r.old.bytes.now r.old.at }
    ensures status { OnErr result (IsErrOf result Status.BadXdr) }
    ensures bytes { r.new.bytes ≡ r.old.bytes }
{
    let clone = clone_args(r)?;
    let Some(consecutive) = r.up_to(1) else {
        return Err(Status::BadXdr);
    };
    let Some(synchronous) = r.up_to(1) else {
        return Err(Status::BadXdr);
    };
    let Some(servers) = r.u32() else {
        return Err(Status::BadXdr);
    };
    let args = CopyArgs {
        clone,
        consecutive,
        synchronous,
    };
    Ok((args, servers))
}

// A COPY. One with source servers is not supported.
fn copy(r: &mut Reader<'_>) -> Result<Operation, Status>
    ensures value { read_of r.old.bytes.now result r.new.at ≡ args_by (find 60 readers) r.old.bytes.now r.old.at }
    ensures bytes { r.new.bytes ≡ r.old.bytes }
{
    let (args, servers) = copy_args(r)?;
    if servers != 0 {
        return Err(Status::NotSupported);
    }
    Ok(Operation::Copy(args))
}

// The operation of a number, whose arguments come next.
fn arguments(r: &mut Reader<'_>, number: u32) -> Result<Operation, Status>
    ensures value { read_of r.old.bytes.now result r.new.at ≡ args_by (find number readers) r.old.bytes.now r.old.at }
    ensures bytes { r.new.bytes ≡ r.old.bytes }
{
    match number {
        Operation::GETATTR => Ok(Operation::GetAttr(bitmap_args(r)?)),
        Operation::GETFH => Ok(Operation::GetFh),
        Operation::PUTFH => Ok(Operation::PutFh(handle_args(r)?)),
        Operation::READ => Ok(Operation::Read(read_args(r)?)),
        Operation::RESTOREFH => Ok(Operation::RestoreFh),
        Operation::SAVEFH => Ok(Operation::SaveFh),
        Operation::WRITE => Ok(Operation::Write(write_args(r)?)),
        Operation::ALLOCATE => Ok(Operation::Allocate(region_args(r)?)),
        Operation::COPY => copy(r),
        Operation::DEALLOCATE => Ok(Operation::Deallocate(region_args(r)?)),
        Operation::READ_PLUS => Ok(Operation::ReadPlus(read_args(r)?)),
        Operation::SEEK => Ok(Operation::Seek(read_args(r)?)),
        Operation::CLONE => Ok(Operation::Clone(clone_args(r)?)),
        _ => Err(Status::NotSupported),
    }
}

// What ends the compound at an operation that is not served.
fn unserved_ending(number: u32) -> Ending
    ensures { ending_of result ≡ unserved number }
{
    if number == Operation::SEQUENCE {
        return Ending {
            number,
            status: Status::SequencePosition,
        };
    }
    if number < Operation::LOWEST || Operation::HIGHEST < number {
        return Ending {
            number: Operation::ILLEGAL,
            status: Status::OpIllegal,
        };
    }
    Ending {
        number,
        status: Status::NotSupported,
    }
}

/// The next operation. Where its bytes are wrong the status is BADXDR, and the reader is at the place of the fault.
#[tactic(auto, using(crate::proofs::ItemLaws::item_by), unfolding(rules::specs::Operation::item_at, rules::specs::Fault::fault_at))]
pub fn item(r: &mut Reader<'_>) -> Result<Operation, Ending>
    ensures value { item_of r.old.bytes.now result r.new.at ≡ item_at r.old.bytes.now r.old.at }
    ensures fault { fault_in result r.new.at ≡ fault_at r.old.bytes.now r.old.at }
    ensures bytes { r.new.bytes ≡ r.old.bytes }
{
    let Some(number) = r.u32() else {
        return Err(Ending {
            number: Operation::ILLEGAL,
            status: Status::BadXdr,
        });
    };
    match arguments(r, number) {
        Ok(operation) => Ok(operation),
        Err(Status::BadXdr) => Err(Ending {
            number,
            status: Status::BadXdr,
        }),
        Err(_) => Err(unserved_ending(number)),
    }
}

/// The header of a request. The first operation comes next.
#[tactic(auto, unfolding(rules::specs::Operation::header, xdr::specs::Decode::opaque_up_to))]
pub fn header(r: &mut Reader<'_>) -> Option<Header>
    ensures value { parsed (header_of r.old.bytes.now) result r.new.at ≡ header r.old.bytes.now r.old.at }
    ensures bytes { r.new.bytes ≡ r.old.bytes }
{
    let tag = r.opaque(Operation::MAX_TAG)?;
    let minor = r.u32()?;
    let ops = r.u32()?;
    Some(Header { tag, minor, ops })
}
