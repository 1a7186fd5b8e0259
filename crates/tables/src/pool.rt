// What is read off the table of holders: used and owed blocks, whether they fit the pool, and the lowest free block.
ghost use Rattle.std.specs.Prelude.{◌≡◌, ◌/◌, ◌<◌, ◌≤◌, length, ltb};
ghost use Rattle.rules.specs.Lists.{count};
ghost use Rattle.rules.specs.Store.{fits_pool};
ghost use Rattle.tables.specs.Tables.{TableTrue};
ghost use Rattle.tables.specs.Tally.{takes_by, owes_by, InTable, OwedFrom, OwedKnown, RoomKnown, first_zero, HeldFrom};

use crate::counted::Counted;
use crate::groups::{Group, all_where, count_where, group_at, group_where};
use crate::tally::block_or;

/// How many blocks have a holder: all but the free ones.
pub fn used_blocks(counts: &[u32]) -> usize
    requires { length counts.now ≤ 65536 }
    ensures { result ≡ count (ltb 0) counts.now }
{
    counts.len() - count_where(counts, |holders| holders == 0)
}

/// Whether a slot with this word is a hole or holds a shared block. A hole reads a count too: nothing is guessed.
pub fn takes_block(word: u32, counts: &[u32]) -> bool
    requires { (word / 2 ≤ length counts.now) × (0 < length counts.now) }
    ensures { result ≡ takes_by counts.now word }
{
    let shared = 1 < counts[block_or(word, 0)];
    (word / 2 == 0) | shared
}

// Whether a slot with this word owes a block.
fn owes_block(word: u32, counts: &[u32]) -> bool
    requires { (word / 2 ≤ length counts.now) × (0 < length counts.now) }
    ensures { result ≡ owes_by counts.now word }
{
    takes_block(word, counts) & (word % 2 == 1)
}

// How many of these slots owe a block.
fn owed_each(words: &[u32], counts: &[u32]) -> usize
    requires { InTable words.now counts.now }
    ensures { result ≡ count (owes_by counts.now) words.now }
{
    let mut sum = 0u32;
    for word in words {
        sum += u32::from(owes_block(*word, counts));
    }
    sum as usize
}

// How many slots are looked at from slot i on, the group that starts there or the slot, and how many of them owe a block.
fn owed_from(words: &[u32], counts: &[u32], i: usize) -> (usize, usize)
    requires { InTable words.now counts.now × (i < length words.now) }
    ensures { OwedFrom words.now counts.now i result.0 result.1 }
{
    if !group_at(i, words.len()) {
        return (1, usize::from(owes_block(words[i], counts)));
    }
    let group = &words[i..i + Group::SIZE];
    if count_where(group, |word| word % 2 == 1) == 0 {
        return (Group::SIZE, 0);
    }
    (Group::SIZE, owed_each(group, counts))
}

/// How many slots owe a block.
pub fn owed_slots(words: &[u32], counts: &[u32]) -> usize
    requires { InTable words.now counts.now }
    ensures { result ≡ count (owes_by counts.now) words.now }
{
    let mut sum = 0;
    let mut i = 0;
    while i < words.len() {
        let (slots, owed) = owed_from(words, counts, i);
        sum += owed;
        i += slots;
    }
    sum
}

/// How many slots owe a block, where the slots that hold one and the used blocks are counted. Without a reserved slot nothing is owed.
/// Where each slot that holds a block holds it alone, reserved holes are.
pub fn owed_of(counted: Counted, used: usize, words: &[u32], counts: &[u32]) -> usize
    requires { OwedKnown counted.held used counted.reserved words.now counts.now }
    ensures { result ≡ count (owes_by counts.now) words.now }
{
    if !counted.reserved {
        return 0;
    }
    if counted.held == used {
        return count_where(words, |word| word == 1);
    }
    owed_slots(words, counts)
}

/// Whether used and owed blocks fit the pool, where the slots that hold a block are counted. Used and owed blocks are counted only where
/// they may not fit: nothing is owed without a reserved slot, and they are never more than the slots that hold a block and those that are
/// reserved.
pub fn fits_of(counted: Counted, words: &[u32], counts: &[u32]) -> bool
    requires { RoomKnown counted.held counted.reserved words.now counts.now }
    ensures { result ≡ fits_pool (length counts.now) words.now }
{
    if !counted.reserved {
        return true;
    }
    if counted.held + count_where(words, |word| word % 2 == 1) <= counts.len() {
        return true;
    }
    let used = used_blocks(counts);
    used + owed_of(counted, used, words, counts) <= counts.len()
}

/// Whether used and owed blocks fit the pool. The slots that hold a block are counted.
pub fn fits_pool(words: &[u32], counts: &[u32]) -> bool
    requires { TableTrue words.now counts.now }
    ensures { result ≡ fits_pool (length counts.now) words.now }
{
    if all_where(words, |word| word % 2 != 1) {
        return true;
    }
    let counted = Counted {
        held: count_where(words, |word| 1 < word),
        reserved: true,
    };
    fits_of(counted, words, counts)
}

// How many blocks from a block on are seen to be held: the group that starts there, the block, or none.
fn held_from(counts: &[u32], block: usize) -> usize
    requires { block < length counts.now }
    ensures { HeldFrom counts.now block result }
{
    if group_where(counts, block, |holders| 0 < holders) {
        return Group::SIZE;
    }
    if counts[block] == 0 {
        return 0;
    }
    1
}

/// The first block without a holder, which is not below `from`; their number where each has one. No block is looked at more than once
/// in its group and once alone.
pub fn lowest_free(counts: &[u32], from: usize) -> usize
    requires { from ≤ first_zero counts.now }
    ensures { result ≡ first_zero counts.now }
{
    let mut block = from;
    while block < counts.len() {
        let n = held_from(counts, block);
        if n == 0 {
            return block;
        }
        block += n;
    }
    block
}
