// A slot word is stored together with its block's counts, so that the table of holders stays true.
ghost use Rattle.std.specs.Prelude.{◌≡◌, ◌/◌, ◌<◌, ◌≤◌, length};
ghost use Rattle.tables.specs.Tally.{forgot, Forgettable};
ghost use Rattle.tables.specs.Tables.{TableTrue, Stored};

use crate::tally::note;

/// One holder less of the block of a word; a hole has none.
#[tactic(auto, using(crate::proofs::WordLaws::forgot_none, crate::proofs::WordLaws::forgot_some))]
pub fn forget(counts: &mut [u32], word: u32)
    requires { Forgettable word counts.old }
    ensures { counts.new ≡ forgot (word / 2) counts.old }
{
    if word / 2 != 0 {
        counts[(word / 2) as usize - 1] -= 1;
    }
}

#[tactic(auto, using(crate::proofs::WordLaws::held_once, crate::proofs::WordLaws::few_holders))]
pub fn set_word(words: &mut [u32], counts: &mut [u32], i: usize, word: u32)
    requires { TableTrue words.old counts.old × ((i < length words.old) × (word / 2 ≤ length counts.old)) }
    ensures { Stored words.old i word words.new counts.new }
{
    forget(counts, words[i]);
    note(counts, word);
    words[i] = word;
}
