// Plans in place: slots get unshared blocks one by one, the plan is judged against the pool, and one that does not fit is undone.
ghost use Rattle.std.specs.Prelude.{◌≡◌, suc, ◌%◌, ◌≤◌, is_ok};
ghost use Rattle.xdr.specs.Bytes.{splice};
ghost use Rattle.rules.specs.Store.{word};
ghost use Rattle.rules.specs.Edit.{owns};
ghost use Rattle.store.specs.Plan.{Planned, Undoable, Undone, Settleable};
ghost use Rattle.store.specs.Planner.{Changeable, SlotChanged};

use crate::edit::NoSpace;
use tables::{fits_pool, lowest_free, set_word, takes_block};

/// Stores the words of old from slot i on.
pub fn undo(words: &mut [u32], counts: &mut [u32], i: usize, old: &[u32])
    requires { Undoable words.old counts.old i old.now }
    ensures { Undone words.old i old.now words.new counts.new }
{
    for (k, &w) in old.iter().enumerate() {
        set_word(words, counts, i + k, w);
    }
}

/// Whether planned words fit the pool. Where they don't, stores the words of old from slot i on, with which they fitted. Words that have
/// not changed need what they did, and are not judged.
pub fn settle(words: &mut [u32], counts: &mut [u32], i: usize, old: &[u32]) -> Result<(), NoSpace>
    requires { Settleable words.old counts.old i old.now }
    ensures { Planned (splice words.old i old.now) words.old (is_ok result) words.new counts.new }
{
    let end = i + old.len();
    if &words[i..end] == old {
        return Ok(());
    }
    if fits_pool(words, counts) {
        return Ok(());
    }
    undo(words, counts, i, old);
    Err(NoSpace)
}

// The word of a slot that takes block b in place of what word w says, and keeps its r.
fn taken_word(b: usize, w: u32) -> u32
    requires { b ≤ 65536 }
    ensures { result ≡ word (suc b) (w % 2) }
{
    2 * (b as u32 + 1) + w % 2
}

/// Gives slot i an unshared block: the one it has, or the lowest free one, which is not below `from`. Answers a number below which no
/// block is free; an error where it takes a block and none is free.
pub fn own_slot(
    words: &mut [u32],
    counts: &mut [u32],
    i: usize,
    from: usize,
) -> Result<usize, NoSpace>
    requires { Changeable words.old counts.old i owns from }
    ensures { SlotChanged owns words.old counts.old i result words.new counts.new }
{
    let w = words[i];
    if !takes_block(w, counts) {
        return Ok(from);
    }
    let b = lowest_free(counts, from);
    if counts.len() <= b {
        return Err(NoSpace);
    }
    set_word(words, counts, i, taken_word(b, w));
    Ok(b + 1)
}
