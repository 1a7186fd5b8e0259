// The operations of a compound, one after the other, up to the first that fails.
ghost use Rattle.std.specs.Prelude.{◌≡◌, ℕ, ◌+◌, ◌++◌, ◌≤◌, length, None};
ghost use Rattle.xdr.specs.Encode.{u32};
ghost use Rattle.xdr.specs.Writing.{HasRoom, Wrote};
ghost use Rattle.rules.specs.Operation.{items, item_at};
ghost use Rattle.rules.specs.Fault.{fault_at};
ghost use Rattle.rules.specs.Run.{perform, reached};
ghost use Rattle.rules.specs.Calls.{fresh};
ghost use Rattle.wire.specs.Decoded.{meaning};
ghost use Rattle.wire.specs.Status.{number_of};
ghost use Rattle.store.specs.Whole.{whole, KeepsWhole};
ghost use Rattle.compound.specs.Runner.{state_of, config_of, Named, Answered, event_of, Turned, RanAll};

use crate::check::Context;
use crate::does::Does;
use crate::edits::put_edit;
use crate::handles::Handles;
use crate::reads::show;
use store::{NoSpace, Store};
use wire::{Operation, Status, item};
use xdr::{Reader, Writer};

/// The status of an operation, and the place of its fault.
#[derive(Clone, Copy, Debug, PartialEq, Eq)]
pub struct Stop {
    pub status: Status,
    pub place: Option<usize>,
}

impl From<Status> for Stop {
    ghost from_gives = { λ s e. (e.status ≡ s) × (e.place ≡ None) };

    fn from(status: Status) -> Self {
        Stop {
            status,
            place: None,
        }
    }
}

/// How a run ended: how many operations were reached, the status of the last one, and the place of its fault.
#[derive(Clone, Copy, Debug, PartialEq, Eq)]
pub struct Ended {
    pub count: u32,
    pub status: Status,
    pub place: Option<usize>,
}

// The head of a result: the operation's number and the status.
fn put_head(w: &mut Writer<'_>, number: u32, status: Status)
    requires { HasRoom 8 w.old }
    ensures { Wrote (u32 number ++ u32 (number_of status)) w.old w.new }
{
    wire::put_result(w, number, status.number());
}

// One operation, run and answered: the handles after it, or its error.
fn perform(
    store: &mut Store<'_, '_>,
    verifier: u64,
    request: &[u8],
    operation: Operation,
    handles: Handles,
    w: &mut Writer<'_>,
) -> Result<Handles, Status>
    requires named { Named store.old.geometry.files handles }
    requires room { HasRoom 2179 w.old }
    ensures answered { (next : ℕ) → Answered
        (perform (config_of store.old.geometry verifier) (state_of handles (whole store.old)) (meaning request.now operation) next)
        handles result (whole store.new) w.old w.new }
    ensures keeps { KeepsWhole store.old store.new }
{
    let number = operation.number();
    let context = Context {
        store,
        request,
        handles,
    };
    match context.check(operation) {
        Err(status) => {
            put_head(w, number, status);
            Err(status)
        }
        Ok(Does::Sets(after)) => {
            put_head(w, number, Status::Ok);
            Ok(after)
        }
        Ok(Does::Shows(file, view)) => {
            put_head(w, number, Status::Ok);
            show(store, file, view, w);
            Ok(handles)
        }
        Ok(Does::Edits(edit)) => match store.apply(&edit) {
            Err(NoSpace) => {
                put_head(w, number, Status::NoSpace);
                Err(Status::NoSpace)
            }
            Ok(()) => {
                put_head(w, number, Status::Ok);
                put_edit(&edit, verifier, w);
                Ok(handles)
            }
        },
    }
}

// What stands at the reader's place, run and answered. What is not counted is not passed.
fn step(
    store: &mut Store<'_, '_>,
    verifier: u64,
    reader: &mut Reader<'_>,
    handles: Handles,
    w: &mut Writer<'_>,
) -> Result<Handles, Stop>
    requires named { Named store.old.geometry.files handles }
    requires room { HasRoom 2179 w.old }
    ensures turned { Turned
        (event_of (config_of store.old.geometry verifier) (state_of handles (whole store.old)) (item_at reader.old.bytes.now reader.old.at))
        (fault_at reader.old.bytes.now reader.old.at) reader.old.at handles result reader.new.at (whole store.new) w.old w.new }
    ensures bytes { reader.new.bytes ≡ reader.old.bytes }
    ensures keeps { KeepsWhole store.old store.new }
{
    let start = reader.at;
    match item(reader) {
        Ok(operation) => Ok(perform(store, verifier, reader.bytes, operation, handles, w)?),
        Err(ending) => {
            put_head(w, ending.number, ending.status);
            let place = (ending.status == Status::BadXdr).then_some(reader.at);
            reader.at = start;
            Err(Stop {
                status: ending.status,
                place,
            })
        }
    }
}

/// At most so many operations from the reader's place on.
pub fn run(
    store: &mut Store<'_, '_>,
    verifier: u64,
    reader: &mut Reader<'_>,
    operations: u32,
    w: &mut Writer<'_>,
) -> Ended
    requires few { operations ≤ 12 }
    requires room { HasRoom 26148 w.old }
    ensures ran { RanAll 0 reader.old.bytes.now
        (reached (config_of store.old.geometry verifier) (fresh (whole store.old)) (items reader.old.bytes.now operations reader.old.at))
        (whole store.old) reader.old.at result reader.new.at (whole store.new) w.old w.new }
    ensures bytes { reader.new.bytes ≡ reader.old.bytes }
    ensures keeps { KeepsWhole store.old store.new }
{
    let mut handles = Handles {
        current: None,
        saved: None,
    };
    for turn in 0..operations {
        match step(store, verifier, reader, handles, w) {
            Ok(after) => handles = after,
            Err(stop) => {
                return Ended {
                    count: turn + 1,
                    status: stop.status,
                    place: stop.place,
                };
            }
        }
    }
    Ended {
        count: operations,
        status: Status::Ok,
        place: None,
    }
}
