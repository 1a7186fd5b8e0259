// The bytes of an edit, in the slots of its region, once their words are planned.
// The tables travel one by one: over one struct the proof is no shorter and the loop no faster.
ghost use Rattle.std.specs.Prelude.{◌≡◌, ℕ};
ghost use Rattle.rules.specs.Store.{Store};
ghost use Rattle.rules.specs.Edit.{edit_bytes, fill_slot};
ghost use Rattle.tables.specs.Lent.{geometry_of};
ghost use Rattle.store.specs.Edits.{edit_from};
ghost use Rattle.store.specs.Fill.{Fills, SlotFills, SlotOwns};

use crate::bytes::{write_slot, zero_slot};
use crate::copy_bytes::copy_slot;
use crate::edit::{Act, Edit, Kind, Slot};
use crate::kinds::kind_of;
use tables::Geometry;

// The share of slot k, which is to have a block of its own. w is its word before the edit, `words` are the planned ones.
fn put_owned(g: Geometry, words: &[u32], mem: &mut [u8], e: &Edit<'_>, k: usize, w: u32)
    requires { (st : Store) × ((size : ℕ) × SlotOwns (geometry_of g) st e.now size words.now mem.old k w) }
    ensures { (st : Store) (size : ℕ) → SlotOwns (geometry_of g) st e.now size words.now mem.old k w
        → mem.new ≡ fill_slot (geometry_of g) st (edit_from e.now) mem.old k }
{
    let slot = Slot {
        index: k,
        old: w,
        new: words[e.file * g.slots + k],
    };
    match e.act {
        Act::Write(d) => write_slot(g, mem, slot, e.off, d),
        Act::Copy(s) => copy_slot(g, words, mem, e, s, slot),
        Act::Clone(_) | Act::Allocate => {}
        Act::Deallocate => zero_slot(g, mem, slot, e.off, e.end),
    }
}

// Slot k's share of e's bytes: nothing unless the slot is to have a block of its own.
fn put_slot(g: Geometry, words: &[u32], mem: &mut [u8], e: &Edit<'_>, size: usize, k: usize, w: u32)
    requires { (st : Store) × SlotFills (geometry_of g) st e.now size words.now mem.old k w }
    ensures { (st : Store) → SlotFills (geometry_of g) st e.now size words.now mem.old k w
        → mem.new ≡ fill_slot (geometry_of g) st (edit_from e.now) mem.old k }
{
    if let Kind::Owns = kind_of(g, words, e, size, k, w) {
        put_owned(g, words, mem, e, k, w);
    }
}

/// The bytes of e in the slots of its region, whose words before it were `old`; its file had that size.
pub fn put_bytes(g: Geometry, words: &[u32], mem: &mut [u8], e: &Edit<'_>, size: usize, old: &[u32])
    requires { (st : Store) × Fills (geometry_of g) st e.now size old.now words.now mem.old }
    ensures { (st : Store) → Fills (geometry_of g) st e.now size old.now words.now mem.old
        → mem.new ≡ edit_bytes (geometry_of g) st (edit_from e.now) }
{
    let first = e.off / g.block_size;
    for (i, &w) in old.iter().enumerate() {
        put_slot(g, words, mem, e, size, first + i, w);
    }
}
