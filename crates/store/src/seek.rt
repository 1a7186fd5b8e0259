// A file's places: the word of a place's slot, SEEK, and where a piece ends.
ghost use Rattle.std.specs.Prelude.{◌≡◌, List, ℕ, ◌+◌, ◌/◌, ◌<◌, get_or};
ghost use Rattle.tables.specs.Lent.{geometry_of};
ghost use Rattle.rules.specs.Store.{word_of};
ghost use Rattle.rules.specs.Read.{seek_place};
ghost use Rattle.store.specs.Readable.{Placed, PieceEnds, hole_in};

use tables::Geometry;

/// The word of the slot in which place i of file f lies.
pub fn word_at(g: Geometry, words: &[u32], f: usize, i: usize) -> u32
    requires { Placed (geometry_of g) words.now f (i + 1) }
    ensures { result ≡ word_of (geometry_of g) words.now f (i / g.block_size) }
{
    words[f * g.slots + i / g.block_size]
}

/// Whether place i of file f lies in a hole.
pub fn hole_at(g: Geometry, words: &[u32], f: usize, i: usize) -> bool
    requires { Placed (geometry_of g) words.now f (i + 1) }
    ensures { result ≡ hole_in (geometry_of g) words.now f i }
{
    word_at(g, words, f, i) / 2 == 0
}

/// The first place from `off` on that is a hole, or data, as asked; or the size.
pub fn seek_file(g: Geometry, words: &[u32], size: u64, f: usize, hole: bool, off: u64) -> u64
    requires { Placed (geometry_of g) words.now f size }
    ensures { (sizes m : List ℕ) → get_or sizes f 0 ≡ size
        → result ≡ seek_place (geometry_of g) (record { sizes = sizes; words = words.now; mem = m }) f hole off }
{
    let b = g.block_size as u64;
    let mut i = off;
    while i < size {
        if hole == hole_at(g, words, f, i as usize) {
            return i;
        }
        i = (i / b + 1) * b;
    }
    size
}

/// Where the piece that starts at place i ends: the first place after i of the other kind, or `end`.
pub fn piece_end(g: Geometry, words: &[u32], f: usize, i: usize, end: usize) -> usize
    requires { Placed (geometry_of g) words.now f end × (i < end) }
    ensures { PieceEnds (geometry_of g) words.now f i end result }
{
    let hole = hole_at(g, words, f, i);
    seek_file(g, words, end as u64, f, !hole, i as u64) as usize
}
