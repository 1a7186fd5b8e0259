// A file's bytes as they are answered, and the pieces of READ_PLUS.
ghost use Rattle.std.specs.Prelude.{◌≡◌, ◌+◌, ◌*◌, ◌<◌, ◌≤◌, length};
ghost use Rattle.xdr.specs.Bytes.{splice};
ghost use Rattle.xdr.specs.Encode.{opaque, opaque_size, concat_map};
ghost use Rattle.xdr.specs.Writing.{Wrote, HasRoom};
ghost use Rattle.tables.specs.Lent.{geometry_of};
ghost use Rattle.rules.specs.Store.{bytes_from};
ghost use Rattle.rules.specs.Operation.{piece_bytes};
ghost use Rattle.store.specs.Readable.{piece_at};
ghost use Rattle.store.specs.Whole.{whole};
ghost use Rattle.compound.specs.Pieces.{piece_size, pieces_size, pieces_to};

use store::Store;
use xdr::Writer;

// The file's n bytes from `from` on into those of `out` from `at` on.
#[tactic(auto, unfolding(xdr::specs::Bytes::splice))]
fn read_part(store: &Store<'_, '_>, file: usize, from: usize, n: usize, out: &mut [u8], at: usize)
    requires file { file < store.now.geometry.files }
    requires fits { from + n ≤ store.now.geometry.slots * store.now.geometry.block_size }
    requires room { at + n ≤ length out.old }
    ensures { out.new ≡ splice out.old at (bytes_from (geometry_of store.now.geometry) (whole store.now) file from n) }
{
    store.read(file, from, &mut out[at..at + n]);
}

// The same where the writer stands.
fn put_bytes(store: &Store<'_, '_>, file: usize, from: usize, n: usize, w: &mut Writer<'_>)
    requires file { file < store.now.geometry.files }
    requires fits { from + n ≤ store.now.geometry.slots * store.now.geometry.block_size }
    requires room { HasRoom n w.old }
    ensures { Wrote (bytes_from (geometry_of store.now.geometry) (whole store.now) file from n) w.old w.new }
{
    let at = w.at;
    let out = &mut *w.out;
    read_part(store, file, from, n, out, at);
    w.at = at + n;
}

/// The file's n bytes from `from` on as opaque data: read into the place where they are answered.
#[tactic(auto, using(xdr::proofs::EncodeLaws::lengths, crate::proofs::PieceLaws::length_bytes), unfolding(xdr::specs::Encode::opaque))]
pub fn put_file_bytes(store: &Store<'_, '_>, file: usize, from: usize, n: usize, w: &mut Writer<'_>)
    requires file { file < store.now.geometry.files }
    requires fits { from + n ≤ store.now.geometry.slots * store.now.geometry.block_size }
    requires room { HasRoom (opaque_size n) w.old }
    ensures { Wrote (opaque (bytes_from (geometry_of store.now.geometry) (whole store.now) file from n)) w.old w.new }
{
    w.u32(n as u32);
    put_bytes(store, file, from, n, w);
    w.zeros(xdr::padding(n));
}

// The file's n bytes from `from` on, all hole or all data as the first is.
#[tactic(auto, using(xdr::proofs::EncodeLaws::lengths))]
fn put_piece(store: &Store<'_, '_>, file: usize, from: usize, n: usize, w: &mut Writer<'_>)
    requires file { file < store.now.geometry.files }
    requires some { 0 < n }
    requires fits { from + n ≤ store.now.geometry.slots * store.now.geometry.block_size }
    requires room { HasRoom (piece_size (piece_at (geometry_of store.now.geometry) (whole store.now).words file from n)) w.old }
    ensures { Wrote (piece_bytes (geometry_of store.now.geometry) (whole store.now) file
        (piece_at (geometry_of store.now.geometry) (whole store.now).words file from n)) w.old w.new }
{
    if store.hole_at(file, from) {
        wire::put_hole(w, from as u64, n as u64);
    } else {
        wire::put_data_head(w, from as u64);
        put_file_bytes(store, file, from, n, w);
    }
}

/// The pieces of the file from `from` up to `end`, one after the other; how many they are.
pub fn put_pieces(
    store: &Store<'_, '_>,
    file: usize,
    from: usize,
    end: usize,
    w: &mut Writer<'_>,
) -> u32
    requires file { file < store.now.geometry.files }
    requires fits { end ≤ store.now.geometry.slots * store.now.geometry.block_size }
    requires room { HasRoom (pieces_size (pieces_to (geometry_of store.now.geometry) (whole store.now) file from end)) w.old }
    ensures number { result ≡ length (pieces_to (geometry_of store.now.geometry) (whole store.now) file from end) }
    ensures written { Wrote (concat_map (piece_bytes (geometry_of store.now.geometry) (whole store.now) file)
        (pieces_to (geometry_of store.now.geometry) (whole store.now) file from end)) w.old w.new }
{
    let mut start = from;
    let mut count = 0;
    while start < end {
        let stop = store.piece_end(file, start, end);
        put_piece(store, file, start, stop - start, w);
        count += 1;
        start = stop;
    }
    count
}
