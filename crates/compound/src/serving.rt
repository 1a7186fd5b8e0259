// The call that serves a compound: the refusals in their order, then the operations, then the reply's head.
ghost use Rattle.std.specs.Prelude.{◌≡◌, true, not, ltb, eqb, [], ◌∷◌, ◌<◌, ◌≤◌, length, is_some, IfSome, IfOk, IfErr};
ghost use Rattle.xdr.specs.Bytes.{part_of};
ghost use Rattle.xdr.specs.Encode.{u64};
ghost use Rattle.xdr.specs.Writing.{HasRoom};
ghost use Rattle.tables.specs.Lent.{geometry_of, dimensions_of, tables};
ghost use Rattle.tables.specs.Loans.{lent_store, KeepsLoan};
ghost use Rattle.rules.specs.Lists.{first};
ghost use Rattle.rules.specs.Store.{good_lengths};
ghost use Rattle.rules.specs.Operation.{MINOR_VERS_MISMATCH, TOO_MANY_OPS};
ghost use Rattle.rules.specs.Run.{config};
ghost use Rattle.rules.specs.Calls.{header_status, compound, Contract};
ghost use Rattle.store.specs.Whole.{whole, KeepsWhole};
ghost use Rattle.wire.specs.Status.{number_of};
ghost use Rattle.wire.specs.Decoded.{header_of};
ghost use Rattle.compound.specs.Runner.{config_of, first_of, RanAll, ServedAs, call, outcome};

use crate::check::ensure;
use crate::run::{Ended, run};
use crate::served::{Refused, Served};
use store::Store;
use tables::{Dimensions, Geometry, Lent, Refusal, View};
use wire::{Header, Operation, Status, header};
use xdr::{Reader, Writer};

// The error of a compound that is refused as a whole.
fn check_header(header: Header) -> Result<(), Status>
    ensures error { first_of result ≡ first ((not (eqb header.minor 2), MINOR_VERS_MISMATCH) ∷ (ltb 12 header.ops, TOO_MANY_OPS) ∷ []) }
    ensures failed { IfErr result (λ e. 0 < number_of e) }
    ensures few { IfOk result (λ u. header.ops ≤ 12) }
{
    ensure(header.minor == Served::MINOR, Status::MinorVersionMismatch)?;
    ensure(header.ops <= Operation::MAX_OPS, Status::TooManyOps)
}

// The operations of a compound; none where its header has an error.
fn answer(
    store: &mut Store<'_, '_>,
    verifier: u64,
    reader: &mut Reader<'_>,
    header: Header,
    w: &mut Writer<'_>,
) -> Ended
    requires { HasRoom 26148 w.old }
    ensures ran { RanAll (header_status (header_of reader.old.bytes.now header)) reader.old.bytes.now
        (compound (config_of store.old.geometry verifier) (whole store.old) reader.old.bytes.now (header_of reader.old.bytes.now header) reader.old.at)
        (whole store.old) reader.old.at result reader.new.at (whole store.new) w.old w.new }
    ensures bytes { reader.new.bytes ≡ reader.old.bytes }
    ensures keeps { KeepsWhole store.old store.new }
{
    match check_header(header) {
        Err(status) => Ended {
            count: 0,
            status,
            place: None,
        },
        Ok(()) => run(store, verifier, reader, header.ops, w),
    }
}

// A compound whose header was read. The head's status and number of results are known behind the results: they are put over zeros.
fn serve_operations(
    store: &mut Store<'_, '_>,
    verifier: u64,
    reader: &mut Reader<'_>,
    header: Header,
    w: &mut Writer<'_>,
) -> Served
    requires start { w.old.at ≡ 0 }
    requires room { 32768 ≤ length w.old.out.now }
    requires tag { length (part_of reader.old.bytes.now header.tag) ≤ 1024 }
    ensures served { ServedAs (config_of store.old.geometry verifier) (whole store.old) reader.old.bytes.now
        (header_of reader.old.bytes.now header) reader.old.at w.old.out.now result w.new.out.now (whole store.new) }
    ensures lent { w.new.out.ghost_name ≡ w.old.out.ghost_name }
    ensures keeps { KeepsWhole store.old store.new }
{
    w.u32(0);
    w.opaque(xdr::part(reader.bytes, header.tag));
    let count = w.at;
    w.u32(0);
    let ended = answer(store, verifier, reader, header, w);
    w.set_u32(count, ended.count);
    w.set_u32(0, ended.status.number());
    Served {
        read: reader.at,
        written: w.at,
        place: ended.place,
    }
}

// Refusals 4 to 6, on a store that is sound.
fn serve_sound(
    store: &mut Store<'_, '_>,
    verifier: u64,
    request: &[u8],
    reply: &mut [u8],
) -> Result<Served, Refused>
    ensures contract { Contract (call (config_of store.old.geometry verifier) request.now reply.old) (whole store.old)
        (outcome result reply.new (whole store.new)) }
    ensures keeps { KeepsWhole store.old store.new }
{
    if request.len() > Served::MAX_REQUEST {
        return Err(Refused::LongRequest);
    }
    if reply.len() < Served::MIN_REPLY {
        return Err(Refused::ShortReply);
    }
    let mut reader = Reader::new(request);
    let Some(header) = header(&mut reader) else {
        return Err(Refused::BadHeader(reader.at));
    };
    let mut w = Writer { out: reply, at: 0 };
    Ok(serve_operations(store, verifier, &mut reader, header, &mut w))
}

// Refusals 3 to 6, with a table of holders of its own. A small table is cleared faster, and takes less of the stack.
#[inline(never)]
fn serve_with<const N: usize>(
    geometry: Geometry,
    sizes: &mut [u64],
    words: &mut [u32],
    memory: &mut [u8],
    verifier: u64,
    request: &[u8],
    reply: &mut [u8],
) -> Result<Served, Refused>
    requires lengths { good_lengths (geometry_of geometry) (tables sizes.old words.old memory.old) ≡ true }
    requires blocks { geometry.blocks ≤ N }
    requires small { N ≤ 65536 }
    ensures { Contract (call (config_of geometry verifier) request.now reply.old) (tables sizes.old words.old memory.old)
        (outcome result reply.new (tables sizes.new words.new memory.new)) }
{
    let mut holders = [0u32; N];
    let holders = &mut holders[..geometry.blocks];
    let view = View {
        geometry,
        sizes,
        words,
        memory,
    };
    if !tables::judge_tables(view, holders) {
        return Err(Refused::Tables(Refusal::Unsound));
    }
    let mut store = Store {
        geometry,
        sizes,
        words,
        memory,
        holders,
    };
    serve_sound(&mut store, verifier, request, reply)
}

// The verifier as a number.
fn verifier_of(bytes: &[u8]) -> Option<u64>
    ensures fits { is_some result ≡ eqb (length bytes.now) 8 }
    ensures number { IfSome result (λ v. u64 v ≡ bytes.now) }
{
    if bytes.len() != Served::VERIFIER {
        return None;
    }
    Reader::new(bytes).u64()
}

/// Serves the compound of a request on the lent store.
pub fn serve(
    dimensions: Dimensions,
    lent: &mut Lent<'_>,
    verifier: &[u8],
    request: &[u8],
    reply: &mut [u8],
) -> Result<Served, Refused>
    ensures contract { Contract (call (config (dimensions_of dimensions) verifier.now) request.now reply.old) (lent_store lent.old)
        (outcome result reply.new (lent_store lent.new)) }
    ensures loan { KeepsLoan lent.old lent.new }
{
    let geometry = lent.seen().view(dimensions)?.geometry;
    let number = verifier_of(verifier).ok_or(Refusal::Length)?;
    let sizes = &mut *lent.sizes;
    let words = &mut *lent.words;
    let memory = &mut *lent.memory;
    match geometry.blocks {
        ..=Geometry::SMALL_POOL => {
            serve_with::<{ Geometry::SMALL_POOL }>(
                geometry, sizes, words, memory, number, request, reply,
            )
        }
        ..=Geometry::MIDDLE_POOL => {
            serve_with::<{ Geometry::MIDDLE_POOL }>(
                geometry, sizes, words, memory, number, request, reply,
            )
        }
        _ => serve_with::<{ Geometry::MAX_BLOCKS }>(
            geometry, sizes, words, memory, number, request, reply,
        ),
    }
}
