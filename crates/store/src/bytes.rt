// An edit's bytes: the block of each touched slot gets the old slot's bytes, with the new ones over them.
ghost use Rattle.std.specs.Prelude.{◌≡◌, min, max, pred, ◌+◌, ◌*◌, ◌/◌, ◌^◌, ◌<◌, ◌≤◌, ◌-◌, ◌⊎◌, length, get_or, take, drop};
ghost use Rattle.xdr.specs.Bytes.{splice};
ghost use Rattle.tables.specs.Lent.{geometry_of};
ghost use Rattle.rules.specs.Edit.{within, slot_bytes, store_slot};
ghost use Rattle.store.specs.SlotBytes.{Starts, Backed, Touched};

use crate::edit::Slot;
use tables::Geometry;

// The leaf that copies a block.
fn copy_over(block: &mut [u8], source: &[u8])
    requires { length block.old ≡ length source.now }
    ensures { block.new ≡ source.now }
{
    block.copy_from_slice(source);
}

/// The `size` bytes at `from` over those at `to`: the target's part of the memory is lent on to the leaf.
#[tactic(auto, unfolding(xdr::specs::Bytes::splice))]
pub fn copy_block(mem: &mut [u8], from: usize, to: usize, size: usize)
    requires inside { (from + size ≤ length mem.old) × (to + size ≤ length mem.old) }
    requires apart { (from + size ≤ to) ⊎ (to + size ≤ from) }
    ensures { mem.new ≡ splice mem.old to (take size (drop from mem.old)) }
{
    if from < to {
        let (low, high) = mem.split_at_mut(to);
        copy_over(&mut high[..size], &low[from..from + size]);
    } else {
        let (low, high) = mem.split_at_mut(from);
        copy_over(&mut low[to..to + size], &high[..size]);
    }
}

// Where the block of word w starts.
fn block_start(g: Geometry, w: u32) -> usize
    requires { (1 ≤ w / 2) × (w / 2 * (geometry_of g).B < 2 ^ 64) }
    ensures { Starts (geometry_of g) w result }
{
    ((w / 2) as usize - 1) * g.block_size
}

/// Gives the block of the slot's new word the old slot's bytes: it is that block, or becomes zeros for a hole, or a copy. Answers where it
/// starts.
pub fn fresh_block(g: Geometry, mem: &mut [u8], slot: Slot) -> usize
    requires { Backed (geometry_of g) (length mem.old) slot.old slot.new }
    ensures start { Starts (geometry_of g) slot.new result }
    ensures bytes { mem.new ≡ splice mem.old (pred (slot.new / 2) * (geometry_of g).B) (slot_bytes (geometry_of g) mem.old slot.old) }
{
    let to = block_start(g, slot.new);
    if slot.old / 2 == slot.new / 2 {
        return to;
    }
    if slot.old / 2 == 0 {
        mem[to..to + g.block_size].fill(0);
        return to;
    }
    copy_block(mem, block_start(g, slot.old), to, g.block_size);
    to
}

/// The places from `off` up to `end` that lie in the slot: from the first number up to the second.
pub fn share(g: Geometry, slot: Slot, off: usize, end: usize) -> (usize, usize)
    requires { slot.index * g.block_size + g.block_size < 2 ^ 64 }
    ensures from { result.0 ≡ max off (slot.index * g.block_size) }
    ensures end { result.1 ≡ min end (slot.index * g.block_size + g.block_size) }
{
    let start = slot.index * g.block_size;
    (off.max(start), end.min(start + g.block_size))
}

/// The slot's share of a WRITE of d at `off`.
pub fn write_slot(g: Geometry, mem: &mut [u8], slot: Slot, off: usize, d: &[u8])
    requires { Touched (geometry_of g) (length mem.old) slot.old slot.new slot.index off (off + length d.now) }
    ensures { mem.new ≡ store_slot (geometry_of g) (within off (off + length d.now)) (λ p. get_or d.now (p - off) 0)
        slot.old slot.new mem.old slot.index }
{
    let (a, b) = share(g, slot, off, off + d.len());
    let to = fresh_block(g, mem, slot) + (a - slot.index * g.block_size);
    mem[to..to + (b - a)].copy_from_slice(&d[a - off..b - off]);
}

/// The slot's share of zeroing the places from `off` up to `end`.
pub fn zero_slot(g: Geometry, mem: &mut [u8], slot: Slot, off: usize, end: usize)
    requires { Touched (geometry_of g) (length mem.old) slot.old slot.new slot.index off end }
    ensures { mem.new ≡ store_slot (geometry_of g) (within off end) (λ i. 0) slot.old slot.new mem.old slot.index }
{
    let (a, b) = share(g, slot, off, end);
    let to = fresh_block(g, mem, slot) + (a - slot.index * g.block_size);
    mem[to..to + (b - a)].fill(0);
}
