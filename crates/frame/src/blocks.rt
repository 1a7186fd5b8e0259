// Long lines in blocks: how far two are the same as they stand, and where a text's first line ends. A block is looked at
// whole, with no way out of its loop, so that many characters are compared at a time.
ghost use Rattle.std.specs.Prelude.{◌≡◌, ◌==◌, ◌≤◌, length, replicate, position};
ghost use Rattle.frame.specs.Lines.{index_of};
ghost use Rattle.frame.specs.Blocks.{mismatches, Same, Plain};

struct Block {}

impl Block {
    const SIZE: usize = 64;
}

// In how many places a block differs from another, as they stand.
fn mismatches(a: &[u8], b: &[u8]) -> u8
    requires { (length a.now ≤ 64) × (length a.now ≤ length b.now) }
    ensures { result ≡ mismatches a.now b.now }
{
    let mut n = 0;
    for (i, x) in a.iter().enumerate() {
        n += u8::from(*x != b[i]);
    }
    n
}

/// A place up to which both are the same, n at most.
pub fn same_blocks(a: &[u8], b: &[u8], n: usize) -> usize
    requires { (n ≤ length a.now) × (n ≤ length b.now) }
    ensures { Same a.now b.now n result }
{
    let mut i = 0;
    while Block::SIZE <= n - i && mismatches(&a[i..i + Block::SIZE], &b[i..i + Block::SIZE]) == 0 {
        i += Block::SIZE;
    }
    i
}

// A place before which no newline stands. `newlines` is a block of them.
fn plain_blocks(text: &[u8], newlines: &[u8]) -> usize
    requires { newlines.now ≡ replicate 64 10 }
    ensures { Plain text.now result }
{
    let mut i = 0;
    while Block::SIZE <= text.len() - i
        && mismatches(&text[i..i + Block::SIZE], newlines) as usize == Block::SIZE
    {
        i += Block::SIZE;
    }
    i
}

// The place of the first such byte.
fn find(text: &[u8], byte: u8) -> Option<usize>
    ensures { result ≡ position (λ c. c == byte) text.now }
{
    text.iter().position(|c| *c == byte)
}

/// The place of the first newline, or the end of the text.
pub fn line_end(text: &[u8]) -> usize
    ensures { result ≡ index_of 10 text.now }
{
    let newlines = [b'\n'; Block::SIZE];
    let at = plain_blocks(text, &newlines);
    match find(&text[at..], b'\n') {
        Some(i) => at + i,
        None => text.len(),
    }
}
