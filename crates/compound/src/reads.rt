// What GETATTR, GETFH, READ, READ_PLUS and SEEK show of a file: the bodies of their results.
ghost use Rattle.std.specs.Prelude.{◌≡◌, ◌+◌, ◌<◌, leb};
ghost use Rattle.xdr.specs.Encode.{u32, opaque};
ghost use Rattle.xdr.specs.Writing.{Wrote, HasRoom};
ghost use Rattle.tables.specs.Lent.{geometry_of};
ghost use Rattle.rules.specs.Attributes.{file_attrs};
ghost use Rattle.rules.specs.Read.{granted};
ghost use Rattle.rules.specs.Operation.{attrs_reply, read_reply, read_plus_reply, seek_reply};
ghost use Rattle.wire.specs.Attrs.{asks};
ghost use Rattle.store.specs.Whole.{whole, KeepsWhole};
ghost use Rattle.compound.specs.Shown.{view_bytes};

use crate::pieces::{put_file_bytes, put_pieces};
use store::Store;
use wire::{Asked, FileAttrs, Operation, ReadArgs};
use xdr::Writer;

// The bytes granted of n asked for.
fn grant(n: u32) -> u64
    ensures { result ≡ granted n }
{
    u64::from(n.min(Operation::MAX_READ))
}

// Whether n bytes from `off` on reach the size.
fn reaches(size: u64, off: u64, n: u64) -> bool
    ensures { result ≡ leb size (off + n) }
{
    size.saturating_sub(n) <= off
}

// READ's body: eof, data.
#[tactic(auto, using(xdr::proofs::EncodeLaws::lengths), unfolding(rules::specs::Operation::read_reply))]
fn put_read(store: &Store<'_, '_>, file: usize, args: ReadArgs, w: &mut Writer<'_>)
    requires file { file < store.now.geometry.files }
    requires room { HasRoom 2171 w.old }
    ensures { Wrote (read_reply (geometry_of store.now.geometry) (whole store.now) file args.offset args.count) w.old w.new }
{
    let size = store.sizes[file];
    let granted = grant(args.count);
    w.boolean(reaches(size, args.offset, granted));
    let n = granted.min(size.saturating_sub(args.offset));
    if n == 0 {
        w.u32(0);
    } else {
        put_file_bytes(store, file, args.offset as usize, n as usize, w);
    }
}

// READ_PLUS's body: eof, the number of pieces, the pieces. They are counted as they are written.
#[tactic(auto, using(xdr::proofs::EncodeLaws::lengths))]
fn put_read_plus(store: &Store<'_, '_>, file: usize, args: ReadArgs, w: &mut Writer<'_>)
    requires file { file < store.now.geometry.files }
    requires room { HasRoom 2171 w.old }
    ensures { Wrote (read_plus_reply (geometry_of store.now.geometry) (whole store.now) file args.offset args.count) w.old w.new }
{
    let size = store.sizes[file];
    let granted = grant(args.count);
    w.boolean(reaches(size, args.offset, granted));
    let place = w.at;
    w.u32(0);
    let end = args.offset.saturating_add(granted).min(size);
    let count = put_pieces(store, file, args.offset as usize, end as usize, w);
    w.set_u32(place, count);
}

// SEEK's body: eof, the place.
#[tactic(auto, unfolding(rules::specs::Operation::seek_reply))]
fn put_seek(store: &Store<'_, '_>, file: usize, args: ReadArgs, w: &mut Writer<'_>)
    requires file { file < store.now.geometry.files }
    requires room { HasRoom 2171 w.old }
    ensures { Wrote (seek_reply (geometry_of store.now.geometry) (whole store.now) file args.offset args.count) w.old w.new }
{
    let place = store.seek_file(file, args.count == 1, args.offset);
    wire::put_sought(w, place == store.sizes[file], place);
}

// GETATTR's body: the attributes that are asked for.
fn put_file_attrs(store: &mut Store<'_, '_>, file: usize, asked: Asked, w: &mut Writer<'_>)
    requires file { file < store.old.geometry.files }
    requires room { HasRoom 2171 w.old }
    ensures wrote { Wrote (attrs_reply (file_attrs (geometry_of store.old.geometry) (whole store.old) file) (asks asked)) w.old w.new }
    ensures same { whole store.new ≡ whole store.old }
    ensures keeps { KeepsWhole store.old store.new }
{
    let block_size = store.geometry.block_size;
    let size = store.sizes[file];
    let space = store.space(file);
    let attrs = FileAttrs {
        size,
        space_used: (block_size * space.used) as u64,
        clone_blksize: block_size as u32,
        space_freed: (block_size * space.freed) as u64,
    };
    wire::put_attrs(w, asked, attrs);
}

// GETFH's body: the handle as opaque data.
#[tactic(auto, unfolding(xdr::specs::Encode::u32, xdr::specs::Encode::be))]
fn put_handle(file: usize, w: &mut Writer<'_>)
    requires file { file < 64 }
    requires room { HasRoom 2171 w.old }
    ensures { Wrote (opaque (u32 file)) w.old w.new }
{
    w.opaque(&(file as u32).to_be_bytes());
}

/// What a result shows of a file. SEEK's `count` is the kind that is asked for.
#[derive(Clone, Copy)]
pub enum View {
    Attrs(Asked),
    Handle,
    Read(ReadArgs),
    ReadPlus(ReadArgs),
    Seek(ReadArgs),
}

/// The body that shows it.
pub fn show(store: &mut Store<'_, '_>, file: usize, view: View, w: &mut Writer<'_>)
    requires file { file < store.old.geometry.files }
    requires room { HasRoom 2171 w.old }
    ensures wrote { Wrote (view_bytes (geometry_of store.old.geometry) (whole store.old) file view) w.old w.new }
    ensures same { whole store.new ≡ whole store.old }
    ensures keeps { KeepsWhole store.old store.new }
{
    match view {
        View::Attrs(asked) => put_file_attrs(store, file, asked, w),
        View::Handle => put_handle(file, w),
        View::Read(args) => put_read(store, file, args, w),
        View::ReadPlus(args) => put_read_plus(store, file, args, w),
        View::Seek(args) => put_seek(store, file, args, w),
    }
}
