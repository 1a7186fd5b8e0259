// The room that slots take, by the table of holders. Taken out of the table, they show the blocks that no other slot holds; then they
// are put back.
ghost use Rattle.tables.specs.Lent.{geometry_of};
ghost use Rattle.tables.specs.Tally.{Forgettable};
ghost use Rattle.tables.specs.Space.{Counted, ForgotLast, ForgotAll, SlotsKnown, SlotsSpace, SpaceKnown, SpaceIs};

use crate::geometry::Geometry;
use crate::groups::count_where;
use crate::pool::owed_slots;
use crate::tally::note_all;
use crate::words::forget;

/// Slots that hold a block or are reserved; and blocks that no other slot holds, with the slots that owe one.
#[derive(Clone, Copy, Debug)]
pub struct Space {
    pub used: usize,
    pub freed: usize,
}

// One holder less of the block of a word; whether it was the last. A hole has none.
fn forget_last(counts: &mut [u32], word: u32) -> bool
    requires { Forgettable word counts.old }
    ensures { ForgotLast word result counts.old counts.new }
{
    forget(counts, word);
    match word / 2 {
        0 => false,
        block => counts[block as usize - 1] == 0,
    }
}

// One holder less of its block for each word; how many blocks lost their last.
fn forget_all(words: &[u32], counts: &mut [u32]) -> usize
    requires { Counted words.now counts.old }
    ensures { ForgotAll words.now result counts.old counts.new }
{
    let mut alone = 0;
    for word in words {
        alone += usize::from(forget_last(counts, *word));
    }
    alone
}

// The room of the slots with these words. The table is afterwards as it was.
fn slots_space(words: &[u32], counts: &mut [u32]) -> Space
    requires { SlotsKnown words.now counts.old }
    ensures { SlotsSpace words.now result.used result.freed counts.old counts.new }
{
    let used = count_where(words, |word| 0 < word);
    let owed = owed_slots(words, counts);
    let alone = forget_all(words, counts);
    note_all(words, counts);
    Space {
        used,
        freed: alone + owed,
    }
}

/// The room of a file. The table of holders is afterwards as it was.
pub fn file_space(geometry: Geometry, words: &[u32], counts: &mut [u32], file: usize) -> Space
    requires { SpaceKnown (geometry_of geometry) words.now counts.old file }
    ensures { SpaceIs (geometry_of geometry) words.now file result.used result.freed counts.old counts.new }
{
    let at = file * geometry.slots;
    slots_space(&words[at..at + geometry.slots], counts)
}
