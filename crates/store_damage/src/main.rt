// Runs whole and damaged tables through the store's own calls. Each line has a name, the
// numbers of `survey` (refusal, used, owed), and of slot 0 of file 0 the refusal, 'hole' or 'data', the length
// shown, and if there are any the first four bytes and the last. A line whose first word is 'slot' has a name and
// this of another slot. The tables are of F 2, S 4, N 4, B 512 unless the name says otherwise.
#![tactic(auto)]

use std::io;
use std::io::Write;
use tables::{Dimensions, Lent, Seen};

const SMALL: Dimensions = Dimensions {
    files: 2,
    slots: 4,
    blocks: 4,
    block_size: 512,
};

// What is looked at: the tables, and the zero page that is lent with them.
#[derive(Clone, Copy)]
struct Look<'a> {
    dimensions: Dimensions,
    seen: Seen<'a, 'a>,
    page: &'a [u8],
}

fn tell<W: Write>(to: &mut W, name: &str, look: Look<'_>) -> io::Result<()> {
    let (number, used, owed) = match tables::survey(look.dimensions, look.seen) {
        Ok(survey) => (0, survey.used, survey.owed),
        Err(refusal) => (refusal.number(), 0, 0),
    };
    write!(to, "{name} {number} {used} {owed}")?;
    say_slot(to, look, 0, 0)?;
    writeln!(to)
}

fn say_slot<W: Write>(to: &mut W, look: Look<'_>, file: usize, slot: usize) -> io::Result<()> {
    let (number, hole) = match tables::slot_place(
        look.dimensions,
        look.seen,
        look.page,
        file,
        slot,
    ) {
        Ok(place) => (0, place.hole),
        Err(refusal) => (refusal.number(), true),
    };
    let kind = if hole { " hole" } else { " data" };
    let part = tables::slot_view(look.dimensions, look.seen, look.page, file, slot);
    write!(to, " {number}{kind} {}", part.len())?;
    if let [first, second, third, fourth, .., last] = part {
        write!(to, " {first} {second} {third} {fourth} {last}")?;
    }
    Ok(())
}

// Tables of no length: 2 where the geometry is inside the limits, else 1.
fn limit<W: Write>(to: &mut W, name: &str, dimensions: Dimensions) -> io::Result<()> {
    let look = Look {
        dimensions,
        seen: Seen {
            sizes: &[],
            words: &[],
            memory: &[],
        },
        page: &[0],
    };
    tell(to, name, look)
}

fn limits<W: Write>(to: &mut W) -> io::Result<()> {
    let most = usize::MAX;
    let cases = [
        ("files-0", 0, 4, 4, 512),
        ("files-1", 1, 4, 4, 512),
        ("files-64", 64, 4, 4, 512),
        ("files-65", 65, 4, 4, 512),
        ("slots-0", 2, 0, 4, 512),
        ("slots-1024", 2, 1024, 4, 512),
        ("slots-1025", 2, 1025, 4, 512),
        ("blocks-0", 2, 4, 0, 512),
        ("blocks-65536", 2, 4, 65536, 512),
        ("blocks-65537", 2, 4, 65537, 512),
        ("largest", 64, 1024, 65536, 4096),
        ("wraps", 4294967296, 4294967296, 1, 512),
        ("huge", most, most, most, most),
    ];
    for (name, files, slots, blocks, block_size) in cases {
        let dimensions = Dimensions {
            files,
            slots,
            blocks,
            block_size,
        };
        limit(to, name, dimensions)?;
    }
    Ok(())
}

fn block_sizes<W: Write>(to: &mut W) -> io::Result<()> {
    let cases = [
        ("block-0", 0),
        ("block-256", 256),
        ("block-511", 511),
        ("block-512", 512),
        ("block-513", 513),
        ("block-1024", 1024),
        ("block-2048", 2048),
        ("block-3072", 3072),
        ("block-4096", 4096),
        ("block-8192", 8192),
    ];
    for (name, block_size) in cases {
        limit(
            to,
            name,
            Dimensions {
                block_size,
                ..SMALL
            },
        )?;
    }
    Ok(())
}

// The tables cut by one each.
fn lengths<W: Write>(to: &mut W) -> io::Result<()> {
    let whole = Look {
        dimensions: SMALL,
        seen: Seen {
            sizes: &[0; 2],
            words: &[0; 8],
            memory: &[0; 2048],
        },
        page: &[0; 512],
    };
    tell(to, "whole", whole)?;
    let sizes = &whole.seen.sizes[..1];
    let seen = Seen {
        sizes,
        ..whole.seen
    };
    tell(to, "sizes-short", Look { seen, ..whole })?;
    let words = &whole.seen.words[..7];
    let seen = Seen {
        words,
        ..whole.seen
    };
    tell(to, "words-short", Look { seen, ..whole })?;
    let memory = &whole.seen.memory[..2047];
    let seen = Seen {
        memory,
        ..whole.seen
    };
    tell(to, "memory-short", Look { seen, ..whole })?;
    let page = &whole.page[..511];
    tell(to, "page-short", Look { page, ..whole })
}

// Four blocks whose first bytes are 11, 22, 33 and 44; the last byte of block 0 is `last`.
fn marked(last: u8) -> [u8; 2048] {
    let mut memory = [0; 2048];
    memory[0] = 11;
    memory[511] = last;
    memory[512] = 22;
    memory[1024] = 33;
    memory[1536] = 44;
    memory
}

// One file with these three slot words and this size.
fn words_and_sizes<W: Write>(to: &mut W) -> io::Result<()> {
    let cases = [
        ("one-block", 512, [2, 0, 0], 0),
        ("last-block", 512, [8, 0, 0], 0),
        ("block-5-of-4", 512, [10, 0, 0], 0),
        ("block-5-reserved", 512, [11, 0, 0], 0),
        ("size-full", 2048, [0, 0, 0], 0),
        ("size-over", 2049, [0, 0, 0], 0),
        ("size-largest", u64::MAX, [0, 0, 0], 0),
        ("slot-past-size", 512, [2, 4, 0], 0),
        ("mark-past-size", 512, [2, 1, 0], 0),
        ("slot-at-size", 513, [2, 4, 0], 0),
        ("byte-past-size", 511, [2, 0, 0], 1),
        ("byte-in-size", 512, [2, 0, 0], 1),
        ("byte-of-no-slot", 511, [4, 0, 0], 1),
        ("reserved-hole", 512, [1, 0, 0], 0),
        ("reserved-block", 512, [3, 0, 0], 0),
        ("shared", 1024, [2, 2, 0], 0),
        ("shared-reserved", 1024, [3, 3, 0], 0),
        ("full", 1536, [3, 3, 1], 0),
        ("shared-thrice", 1536, [3, 3, 2], 0),
    ];
    for (name, size, [first, second, third], last) in cases {
        let memory = marked(last);
        let look = Look {
            dimensions: SMALL,
            seen: Seen {
                sizes: &[size, 0],
                words: &[first, second, third, 0, 0, 0, 0, 0],
                memory: &memory,
            },
            page: &[0; 512],
        };
        tell(to, name, look)?;
    }
    Ok(())
}

// Used and owed on both sides of the pool of one block.
fn pool<W: Write>(to: &mut W) -> io::Result<()> {
    let full = Look {
        dimensions: Dimensions { blocks: 1, ..SMALL },
        seen: Seen {
            sizes: &[1024; 2],
            words: &[2, 0, 0, 0, 0, 0, 0, 0],
            memory: &[0; 512],
        },
        page: &[0; 512],
    };
    tell(to, "pool-full", full)?;
    let words = &[2, 1, 0, 0, 0, 0, 0, 0];
    let seen = Seen { words, ..full.seen };
    tell(to, "pool-over", Look { seen, ..full })
}

fn pages<W: Write>(to: &mut W) -> io::Result<()> {
    let mut page = [0; 512];
    page[511] = 1;
    let look = Look {
        dimensions: SMALL,
        seen: Seen {
            sizes: &[0; 2],
            words: &[0; 8],
            memory: &[0; 2048],
        },
        page: &page,
    };
    tell(to, "page-not-zero", look)?;
    let sizes = &[0, 2049];
    let seen = Seen { sizes, ..look.seen };
    let page = &page[..511];
    tell(to, "page-and-size", Look { seen, page, ..look })
}

// File 0 has block 1, a hole, block 2 with a reserve, and a slot past its size; file 1 shares block 1.
fn slots<W: Write>(to: &mut W) -> io::Result<()> {
    let mut memory = [9; 2048];
    memory[512..516].copy_from_slice(&[21, 22, 23, 24]);
    memory[1023] = 29;
    let mut dirty = [0; 512];
    dirty[0] = 1;
    let seen = Seen {
        sizes: &[1536, 512],
        words: &[4, 0, 7, 0, 4, 0, 0, 0],
        memory: &memory,
    };
    let page: &[u8] = &[0; 512];
    let most = usize::MAX;
    let cases = [
        ("block", page, 0, 0),
        ("hole", page, 0, 1),
        ("reserved-block", page, 0, 2),
        ("past-size", page, 0, 3),
        ("shared-block", page, 1, 0),
        ("last-of-all", page, 1, 3),
        ("no-slot", page, 0, 4),
        ("no-file", page, 2, 0),
        ("neither", page, most, most),
        ("short-page", &page[..511], 0, 0),
        ("no-page", &page[..0], 0, 4),
        ("page-not-zero", &dirty, 0, 1),
        ("page-before-slot", &dirty, 0, 4),
    ];
    for (name, page, file, slot) in cases {
        let look = Look {
            dimensions: SMALL,
            seen,
            page,
        };
        write!(to, "slot {name}")?;
        say_slot(to, look, file, slot)?;
        writeln!(to)?;
    }
    Ok(())
}

// Makes an empty store of tables that hold other numbers, and tells of them.
fn make<W: Write>(to: &mut W, name: &str, lent: &mut Lent<'_>) -> io::Result<()> {
    let number = match tables::make_empty(SMALL, lent) {
        Ok(()) => 0,
        Err(refusal) => refusal.number(),
    };
    write!(to, "make")?;
    write!(to, " {number} ")?;
    tell_lent(to, name, lent)
}

fn tell_lent<W: Write>(to: &mut W, name: &str, lent: &Lent<'_>) -> io::Result<()> {
    let look = Look {
        dimensions: SMALL,
        seen: lent.seen(),
        page: &[0; 512],
    };
    tell(to, name, look)
}

fn made<W: Write>(to: &mut W) -> io::Result<()> {
    let mut sizes = [7; 2];
    let mut words = [7; 8];
    let mut more = [7; 2049];
    let mut memory = [7; 2048];
    let mut long = Lent {
        sizes: &mut sizes,
        words: &mut words,
        memory: &mut more,
    };
    make(to, "memory-long", &mut long)?;
    let mut lent = Lent {
        sizes: &mut sizes,
        words: &mut words,
        memory: &mut memory,
    };
    tell_lent(to, "as-before", &lent)?;
    make(to, "made", &mut lent)?;
    tell_lent(to, "made-whole", &lent)
}

fn main(rt: HostRuntime) -> io::Result<()> {
    let to = &mut rt.stdout();
    limits(to)?;
    block_sizes(to)?;
    lengths(to)?;
    words_and_sizes(to)?;
    pool(to)?;
    pages(to)?;
    slots(to)?;
    made(to)
}
