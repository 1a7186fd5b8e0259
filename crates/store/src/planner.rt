// The plan of any edit, in place: what becomes of each slot of its region, those that become holes first, then the others.
// The tables travel one by one: over one struct the proof is no shorter and the loop no faster.
ghost use Rattle.std.specs.Prelude.{◌≡◌, true, length, is_ok};
ghost use Rattle.rules.specs.Store.{fits_pool};
ghost use Rattle.tables.specs.Lent.{geometry_of};
ghost use Rattle.store.specs.Edits.{kind_from};
ghost use Rattle.store.specs.Planner.{Changeable, SlotChanged, Plannable, Passed, EditPlanned};

use crate::edit::{Edit, Kind, NoSpace, Pass};
use crate::kinds::kind_of;
use crate::plan::{own_slot, settle, undo};
use tables::{Geometry, set_word};

// Does to slot i of the table what its kind says. No block below `from` is free; a word that is stored for another reason than to take
// a block may free one, and the search begins anew. Answers as `own_slot`.
fn change_slot(
    words: &mut [u32],
    counts: &mut [u32],
    i: usize,
    kind: Kind,
    from: usize,
) -> Result<usize, NoSpace>
    requires { Changeable words.old counts.old i (kind_from kind) from }
    ensures { SlotChanged (kind_from kind) words.old counts.old i result words.new counts.new }
{
    let w = match kind {
        Kind::Owns => return own_slot(words, counts, i, from),
        Kind::Stays => return Ok(from),
        Kind::Given => 0,
        Kind::Cleared => words[i] % 2,
        Kind::Shares(p) => 2 * (words[p] / 2) + words[i] % 2,
        Kind::Reserved => 2 * (words[i] / 2) + 1,
    };
    set_word(words, counts, i, w);
    Ok(0)
}

// A pass over the slots of e, whose words before the edit are `old`, in rising order. Each search for a free block goes on behind the
// last one. Stops where a slot takes a block and none is free.
fn pass(
    g: Geometry,
    words: &mut [u32],
    counts: &mut [u32],
    e: &Edit<'_>,
    size: usize,
    which: Pass,
    old: &[u32],
) -> Result<(), NoSpace>
    requires { Plannable (geometry_of g) e.now words.old counts.old old.now }
    ensures { Passed (geometry_of g) e.now size which old.now words.old (is_ok result) words.new counts.new }
{
    let k = e.off / g.block_size;
    let i = e.file * g.slots + k;
    let mut from = 0;
    for (j, &w) in old.iter().enumerate() {
        let kind = kind_of(g, words, e, size, k + j, w);
        if which.takes(kind) {
            from = change_slot(words, counts, i + j, kind, from)?;
        }
    }
    Ok(())
}

/// Plans e in place and saves the words of its slots in `old`. Where the plan does not fit the pool, the words go back.
pub fn plan(
    g: Geometry,
    words: &mut [u32],
    counts: &mut [u32],
    e: &Edit<'_>,
    size: usize,
    old: &mut [u32],
) -> Result<(), NoSpace>
    requires { Plannable (geometry_of g) e.now words.old counts.old old.old × (fits_pool (length counts.old) words.old ≡ true) }
    ensures { EditPlanned (geometry_of g) e.now size words.old (is_ok result) words.new counts.new old.new }
{
    let i = e.file * g.slots + e.off / g.block_size;
    let end = i + old.len();
    old.copy_from_slice(&words[i..end]);
    // It takes no block, so it does not stop.
    pass(g, words, counts, e, size, Pass::Holes, old)?;
    if pass(g, words, counts, e, size, Pass::Others, old).is_err() {
        undo(words, counts, i, old);
        return Err(NoSpace);
    }
    settle(words, counts, i, old)
}
