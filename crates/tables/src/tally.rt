// The slot words scanned, and the table of holders filled: one more for the block of each slot.
ghost use Rattle.std.specs.Prelude.{◌≡◌, cond, pred, ◌+◌, ◌/◌, ◌<◌, ◌≤◌, length, get_or, leb, ltb, eqb, is_some, IfSome};
ghost use Rattle.rules.specs.Lists.{all_to, bit, count};
ghost use Rattle.rules.specs.Store.{is_hole};
ghost use Rattle.tables.specs.Tally.{holds_one, Scannable, SlotCounts, SlotsCounted, noted, Notable, NotesFit, NotesFitAs, NotesFitFrom, GroupsFit, NotedAll, NotedFrom};

use crate::counted::Counted;
use crate::groups::{Group, count_where, group_at};

// 1 where a slot with this word holds one of the blocks, else 0. Two less, the word of a hole is the greatest: one comparison tells.
fn holds_one(word: u32, blocks: u32) -> u32
    requires { blocks ≤ 65536 }
    ensures { result ≡ bit (holds_one blocks word) }
{
    u32::from(word.wrapping_sub(2) < 2 * blocks)
}

// Whether the words of which so many hold a block are else holes.
fn rest_holes(held: usize, words: &[u32]) -> bool
    requires { (length words.now ≤ 65536) × (held + count (λ word. leb word 1) words.now ≤ length words.now) }
    ensures { result ≡ eqb (held + count (λ word. leb word 1) words.now) (length words.now) }
{
    if held == words.len() {
        return true;
    }
    held + count_where(words, |word| word <= 1) == words.len()
}

/// What one pass tells of slot words; None where one names a block that is none of so many.
pub fn scan_words(words: &[u32], blocks: usize) -> Option<Counted>
    requires { (blocks ≤ 65536) × (length words.now ≤ 65536) }
    ensures formed { is_some result ≡ all_to (length words.now) (λ i. leb (get_or words.now i 0 / 2) blocks) }
    ensures counted { IfSome result (λ c. SlotCounts words.now c.held c.reserved) }
{
    let blocks = blocks as u32;
    let mut sum = 0u32;
    let mut reserved = false;
    for word in words {
        sum += holds_one(*word, blocks);
        reserved |= *word % 2 == 1;
    }
    let held = sum as usize;
    if !rest_holes(held, words) {
        return None;
    }
    Some(Counted { held, reserved })
}

/// The block of a word, or `own` for a hole.
pub fn block_or(word: u32, own: usize) -> usize
    ensures { result ≡ cond (is_hole word) own (pred (word / 2)) }
{
    match word / 2 {
        0 => own,
        block => block as usize - 1,
    }
}

/// One more holder of the block of a word; a hole has none.
#[tactic(auto, using(crate::proofs::TallyLaws::noted_none))]
pub fn note(counts: &mut [u32], word: u32)
    requires { Notable word counts.old }
    ensures { counts.new ≡ noted (word / 2) counts.old }
{
    if word / 2 != 0 {
        note_held(counts, word);
    }
}

// The same of a slot that holds a block.
#[tactic(auto, using(crate::proofs::TallyLaws::noted_some))]
fn note_held(counts: &mut [u32], word: u32)
    requires { Notable word counts.old × (0 < word / 2) }
    ensures { counts.new ≡ noted (word / 2) counts.old }
{
    counts[(word / 2) as usize - 1] += 1;
}

// The same of any slot without a branch: a hole adds nothing to the number at `own`.
fn note_mixed(counts: &mut [u32], word: u32, own: usize)
    requires { Notable word counts.old × (own < length counts.old) }
    ensures { counts.new ≡ noted (word / 2) counts.old }
{
    let block = block_or(word, own);
    counts[block] += u32::from(1 < word);
}

// One more holder of its block for each word; HELD says that each holds one. Holes add nothing to numbers of their own, so that none waits
// for the one before it.
fn note_each<const HELD: bool>(words: &[u32], counts: &mut [u32])
    requires { NotesFitAs HELD words.now counts.old }
    ensures { NotedAll words.now counts.old counts.new }
{
    for (i, word) in words.iter().enumerate() {
        if HELD {
            note_held(counts, *word);
        } else {
            note_mixed(counts, *word, i);
        }
    }
}

// The same from slot i on, of the group that starts there or of the slot: how many it were.
fn note_from<const HELD: bool>(words: &[u32], counts: &mut [u32], i: usize) -> usize
    requires { NotesFitFrom HELD words.now counts.old i }
    ensures { NotedFrom words.now i result counts.old counts.new }
{
    if group_at(i, words.len()) && Group::SIZE <= counts.len() {
        note_each::<HELD>(&words[i..i + Group::SIZE], counts);
        return Group::SIZE;
    }
    note(counts, words[i]);
    1
}

// Never inlined: the loop is faster in a function of its own.
#[inline(never)]
fn note_groups<const HELD: bool>(words: &[u32], counts: &mut [u32])
    requires { GroupsFit HELD words.now counts.old }
    ensures { NotedAll words.now counts.old counts.new }
{
    let mut i = 0;
    while i < words.len() {
        i += note_from::<HELD>(words, counts, i);
    }
}

// One more holder of its block for each word, of which so many hold one, with no branch on a word.
fn note_counted(held: usize, words: &[u32], counts: &mut [u32])
    requires { NotesFit words.now counts.old × (held ≡ count (ltb 1) words.now) }
    ensures { NotedAll words.now counts.old counts.new }
{
    if held == 0 {
        return;
    }
    if held == words.len() {
        note_groups::<true>(words, counts);
    } else {
        note_groups::<false>(words, counts);
    }
}

pub fn note_all(words: &[u32], counts: &mut [u32])
    requires { NotesFit words.now counts.old }
    ensures { NotedAll words.now counts.old counts.new }
{
    note_counted(count_where(words, |word| 1 < word), words, counts);
}

/// Scans slots and, where each names one of the blocks or none, notes them.
pub fn scan_and_note(words: &[u32], counts: &mut [u32]) -> Option<Counted>
    requires { Scannable words.now counts.old }
    ensures formed { is_some result ≡ all_to (length words.now) (λ i. leb (get_or words.now i 0 / 2) (length counts.old)) }
    ensures counted { IfSome result (λ c. SlotsCounted words.now counts.old c.held c.reserved counts.new) }
{
    let counted = scan_words(words, counts.len())?;
    note_counted(counted.held, words, counts);
    Some(counted)
}
