// The one call that edits: the plan, and where it fits the pool the bytes and the size.
ghost use Rattle.std.specs.Prelude.{◌≡◌, ◌*◌, ◌<◌, ◌≤◌, ◌-◌, is_ok};
ghost use Rattle.rules.specs.Edit.{slot_count, edited};
ghost use Rattle.store.specs.EditPromises.{EditPromise};
ghost use Rattle.store.specs.Edits.{Applies, edit_from};
ghost use Rattle.tables.specs.Lent.{geometry_of, tables};

use crate::edit::{Edit, NoSpace};
use crate::fill::put_bytes;
use crate::planner::plan;
use tables::Geometry;

// How many slots have a byte in the region from `off` up to `end`.
fn slot_count(g: Geometry, off: usize, end: usize) -> usize
    requires { (off < end) × (end ≤ (geometry_of g).S * (geometry_of g).B) }
    ensures { result ≡ slot_count (geometry_of g) off end }
{
    end.div_ceil(g.block_size) - off / g.block_size
}

/// Applies e to the store. Refuses, and changes nothing, exactly if the store would then need more blocks than there are.
pub fn apply(
    g: Geometry,
    sizes: &mut [u64],
    words: &mut [u32],
    mem: &mut [u8],
    counts: &mut [u32],
    e: &Edit<'_>,
) -> Result<(), NoSpace>
    requires { Applies (geometry_of g) (tables sizes.old words.old mem.old) counts.old e.now }
    ensures { EditPromise (geometry_of g) (tables sizes.old words.old mem.old)
        (edited (geometry_of g) (tables sizes.old words.old mem.old) (edit_from e.now))
        (is_ok result) (tables sizes.new words.new mem.new) counts.new }
{
    if e.end <= e.off {
        return Ok(());
    }
    let size = sizes[e.file];
    let mut saved = [0u32; Geometry::MAX_SLOTS];
    let old = &mut saved[..slot_count(g, e.off, e.end)];
    plan(g, words, counts, e, size as usize, old)?;
    put_bytes(g, words, mem, e, size as usize, old);
    sizes[e.file] = size.max(e.end as u64);
    Ok(())
}
