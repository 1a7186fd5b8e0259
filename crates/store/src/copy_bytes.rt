// The bytes of a COPY: each touched slot's share is copied from the source's blocks.
ghost use Rattle.std.specs.Prelude.{◌≡◌, List, ℕ, ◌+◌, ◌-◌};
ghost use Rattle.xdr.specs.Bytes.{splice};
ghost use Rattle.tables.specs.Lent.{geometry_of, tables};
ghost use Rattle.rules.specs.Store.{byte_at, bytes_from};
ghost use Rattle.rules.specs.Edit.{within, store_slot};
ghost use Rattle.store.specs.Readable.{InSlot};
ghost use Rattle.store.specs.SlotBytes.{Copyable, SlotCopy};

use crate::bytes::{copy_block, fresh_block, share};
use crate::edit::{Edit, Slot, Source};
use crate::read::slot_share;
use crate::seek::word_at;
use tables::Geometry;

// The source's n bytes, all of one slot, over those of the memory at `to`.
fn copy_part(g: Geometry, words: &[u32], mem: &mut [u8], from: Source, to: usize, n: usize)
    requires { Copyable (geometry_of g) words.now mem.old from.file from.off n to × InSlot g.block_size from.off n }
    ensures { (sizes : List ℕ)
        → mem.new ≡ splice mem.old to (bytes_from (geometry_of g) (tables sizes words.now mem.old) from.file from.off n) }
{
    let k = (word_at(g, words, from.file, from.off) / 2) as usize;
    if k == 0 {
        mem[to..to + n].fill(0);
        return;
    }
    copy_block(mem, (k - 1) * g.block_size + from.off % g.block_size, to, n);
}

// The source's n bytes over those of the memory at `to`, slot by slot.
fn copy_bytes(g: Geometry, words: &[u32], mem: &mut [u8], from: Source, to: usize, n: usize)
    requires { Copyable (geometry_of g) words.now mem.old from.file from.off n to }
    ensures { (sizes : List ℕ)
        → mem.new ≡ splice mem.old to (bytes_from (geometry_of g) (tables sizes words.now mem.old) from.file from.off n) }
{
    let file = from.file;
    let mut at = 0;
    while at < n {
        let off = from.off + at;
        let share = slot_share(g.block_size, off, n - at);
        copy_part(g, words, mem, Source { file, off }, to + at, share);
        at += share;
    }
}

/// The slot's share of the COPY e from that source.
pub fn copy_slot(g: Geometry, words: &[u32], mem: &mut [u8], e: &Edit<'_>, from: Source, slot: Slot)
    requires { SlotCopy (geometry_of g) words.now mem.old from.file from.off slot.old slot.new slot.index e.now.off e.now.end }
    ensures { (sizes : List ℕ)
        → mem.new ≡ store_slot (geometry_of g) (within e.now.off e.now.end)
        (λ p. byte_at (geometry_of g) (tables sizes words.now mem.old) from.file (from.off + (p - e.now.off)))
        slot.old slot.new mem.old slot.index }
{
    let (a, b) = share(g, slot, e.off, e.end);
    let to = fresh_block(g, mem, slot) + (a - slot.index * g.block_size);
    let file = from.file;
    let off = from.off + (a - e.off);
    copy_bytes(g, words, mem, Source { file, off }, to, b - a);
}
