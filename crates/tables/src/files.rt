// Whether each file is sound: its size, the slots past it, and the bytes of its last slot past it.
ghost use Rattle.std.specs.Prelude.{◌≡◌, ◌||◌, ◌+◌, ◌-◌, ◌*◌, ◌/◌, ◌<◌, ◌≤◌, length, get_or, eqb, ltb};
ghost use Rattle.rules.specs.Lists.{all_to, ceil_div};
ghost use Rattle.rules.specs.Store.{word_of, slot_byte, sound_file};
ghost use Rattle.tables.specs.Lent.{geometry_of};
ghost use Rattle.tables.specs.Tables.{FileKnown};
ghost use Rattle.tables.specs.Viewed.{view_store};

use crate::geometry::Geometry;
use crate::groups::all_where;
use crate::lent::View;

/// Whether every byte is 0.
pub fn zero_bytes(bytes: &[u8]) -> bool
    ensures { result ≡ all_to (length bytes.now) (λ j. eqb (get_or bytes.now j 0) 0) }
{
    let mut all = true;
    for byte in bytes {
        all &= *byte == 0;
    }
    all
}

// Whether the slots of a file are 0 from slot `from` on.
fn slots_zero(geometry: Geometry, words: &[u32], file: usize, from: usize) -> bool
    requires { (file * geometry.slots + geometry.slots ≤ length words.now) × (from ≤ geometry.slots) }
    ensures { result ≡ all_to geometry.slots (λ k. ltb k from || eqb (word_of (geometry_of geometry) words.now file k) 0) }
{
    let at = file * geometry.slots;
    all_where(&words[at + from..at + geometry.slots], |word| word == 0)
}

// Whether the bytes of the slot with this word are 0 from place `from` on. In a hole they are.
fn tail_zero(geometry: Geometry, memory: &[u8], word: u32, from: usize) -> bool
    requires { (word / 2 * geometry.block_size ≤ length memory.now) × (from ≤ geometry.block_size) }
    ensures { result ≡ all_to (geometry.block_size - from) (λ j. eqb (slot_byte (geometry_of geometry) memory.now word (from + j)) 0) }
{
    let block = (word / 2) as usize;
    if block == 0 {
        return true;
    }
    let at = (block - 1) * geometry.block_size;
    zero_bytes(&memory[at + from..at + geometry.block_size])
}

/// How many slots a file of that size has.
pub fn slots_of(size: usize, block_size: usize) -> usize
    requires { (0 < block_size) × (size ≤ 4194304) }
    ensures { result ≡ ceil_div size block_size }
{
    size.div_ceil(block_size)
}

/// Whether a file is sound. Of the block memory only the bytes past the size, in its last slot's block, are read.
pub fn file_sound(view: View<'_, '_>, file: usize) -> bool
    requires { FileKnown (geometry_of view.geometry) (view_store view) file }
    ensures { result ≡ sound_file (geometry_of view.entry.geometry) (view_store view.entry) file }
{
    let geometry = view.geometry;
    let size = view.sizes[file];
    if ((geometry.slots * geometry.block_size) as u64) < size {
        return false;
    }
    let size = size as usize;
    let end = slots_of(size, geometry.block_size);
    if !slots_zero(geometry, view.words, file, end) {
        return false;
    }
    let past = size % geometry.block_size;
    if past == 0 {
        return true;
    }
    let last = view.words[file * geometry.slots + size / geometry.block_size];
    tail_zero(geometry, view.memory, last, past)
}
