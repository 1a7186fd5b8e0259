// A file's bytes.
ghost use Rattle.std.specs.Prelude.{◌≡◌, List, ℕ, ◌+◌, ◌-◌, ◌%◌, ◌<◌, min, length};
ghost use Rattle.tables.specs.Lent.{geometry_of};
ghost use Rattle.rules.specs.Store.{bytes_from};
ghost use Rattle.store.specs.Readable.{Readable, InSlot};

use crate::seek::word_at;
use tables::Geometry;

/// Of the n bytes from place i on, how many lie in the slot of place i.
pub fn slot_share(b: usize, i: usize, n: usize) -> usize
    requires { 0 < b }
    ensures { result ≡ min n (b - i % b) }
{
    n.min(b - i % b)
}

// The file's bytes from place i on, all of one slot, into the whole of `out`.
fn read_slot(g: Geometry, words: &[u32], mem: &[u8], f: usize, i: usize, out: &mut [u8])
    requires { Readable (geometry_of g) words.now mem.now f (i + length out.old) × InSlot g.block_size i (length out.old) }
    ensures { (sizes : List ℕ)
        → out.new ≡ bytes_from (geometry_of g) (record { sizes = sizes; words = words.now; mem = mem.now }) f i (length out.old) }
{
    let k = (word_at(g, words, f, i) / 2) as usize;
    if k == 0 {
        out.fill(0);
        return;
    }
    let start = (k - 1) * g.block_size + i % g.block_size;
    out.copy_from_slice(&mem[start..start + out.len()]);
}

/// The file's bytes from place off on into the whole of `out`.
pub fn read_bytes(g: Geometry, words: &[u32], mem: &[u8], f: usize, off: usize, out: &mut [u8])
    requires { Readable (geometry_of g) words.now mem.now f (off + length out.old) }
    ensures { (sizes : List ℕ)
        → out.new ≡ bytes_from (geometry_of g) (record { sizes = sizes; words = words.now; mem = mem.now }) f off (length out.old) }
{
    let mut at = 0;
    while at < out.len() {
        let i = off + at;
        let end = at + slot_share(g.block_size, i, out.len() - at);
        read_slot(g, words, mem, f, i, &mut out[at..end]);
        at = end;
    }
}
