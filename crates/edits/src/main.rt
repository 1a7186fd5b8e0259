// Serves compounds on stores of several geometries, each line of standard input answered by one line.
// "=" and 16 digits, four each for files, slots, blocks and block size, makes an empty store and is answered by itself,
// by "too large" where the tables below don't hold it, or by "-" and the refusal; then the store before it stays.
// Any other line is a COMPOUND in hexadecimal. Its answer is the reply's digits, or "-" and the refusal, then the used
// and the owed blocks. The first store has F 4, S 16, N 32, B 512. The verifier is zero.
// A test before a call stands for a proof of what the call requires.
#![tactic(auto)]

ghost use Rattle.std.specs.Prelude.{◌≤◌, length};

use compound::Served;
use frame::Request;
use std::io;
use std::io::{Read, Write};
use tables::{Dimensions, Lent, Refusal};
use xdr::{Reader, Span};

// Tables for F 4, S 16, N 32, B 4,096, room for an answer, and bytes of input read at a time.
const SIZES: usize = 4;

const WORDS: usize = 64;

const MEMORY: usize = 131072;

const ANSWER: usize = 65536;

const INPUT: usize = 65536;

// A line of the input, as far as it has come. One too long for a compound loses its tail.
#[derive(Drop)]
struct Line<'a> {
    buffer: &'a mut [u8],
    length: usize,
}

impl Line<'_> {
    fn push(&mut self, byte: u8) {
        if self.length < self.buffer.len() {
            self.buffer[self.length] = byte;
            self.length += 1;
        }
    }

    fn text(&self) -> &[u8] {
        front(self.buffer, self.length)
    }
}

// The first bytes, so many or all of them.
fn front(bytes: &[u8], len: usize) -> &[u8] {
    xdr::part(bytes, Span { start: 0, len })
}

// The dimensions that 16 digits say.
fn said(digits: &[u8], numbers: &mut [u8]) -> Option<Dimensions>
    requires { 4096 ≤ length numbers.old }
{
    if digits.len() != 16 {
        return None;
    }
    let n = frame::request_bytes(digits, numbers)?;
    let mut reader = Reader::new(&numbers[..n]);
    let first = reader.u32()?;
    let second = reader.u32()?;
    Some(Dimensions {
        files: (first / 65536) as usize,
        slots: (first % 65536) as usize,
        blocks: (second / 65536) as usize,
        block_size: (second % 65536) as usize,
    })
}

// What a line asks for: the store that "=" and digits say, nothing clear where they say none, or else to be served.
enum Wish {
    Service,
    Store(Dimensions),
    Unclear,
}

fn asked(line: &[u8]) -> Wish {
    let [b'=', digits @ ..] = line else {
        return Wish::Service;
    };
    let mut numbers = [0u8; Request::MAX_BYTES];
    match said(digits, &mut numbers) {
        Some(dimensions) => Wish::Store(dimensions),
        None => Wish::Unclear,
    }
}

fn put_reply(reply: &[u8], text: &mut [u8]) -> Option<usize> {
    if text.len() / 2 < reply.len() {
        return None;
    }
    Some(frame::put_hex(reply, text))
}

fn put_refusal(number: u32, text: &mut [u8]) -> Option<usize> {
    if 9 < number || text.len() < 2 {
        return None;
    }
    Some(frame::put_refusal(number, text))
}

// Serves the line's compound, and answers how many bytes of `text` are the answer, if it holds the answer.
fn serve_digits(
    dimensions: Dimensions,
    lent: &mut Lent<'_>,
    line: &[u8],
    request: &mut [u8],
    reply: &mut [u8],
    text: &mut [u8],
) -> Option<usize>
    requires { 4096 ≤ length request.old }
{
    let Some(n) = frame::request_bytes(line, request) else {
        return put_refusal(Request::REFUSED, text);
    };
    let verifier = [0u8; Served::VERIFIER];
    match compound::serve(dimensions, lent, &verifier, &request[..n], reply) {
        Ok(served) => put_reply(front(reply, served.written), text),
        Err(refused) => put_refusal(refused.number(), text),
    }
}

// Serves the line's compound: its answer, and the counts of the store.
fn serve<W: Write>(
    to: &mut W,
    dimensions: Dimensions,
    lent: &mut Lent<'_>,
    line: &[u8],
) -> io::Result<()> {
    let mut request = [0u8; Request::MAX_BYTES];
    let mut reply = [0u8; Served::MIN_REPLY];
    let mut text = [0u8; ANSWER];
    if let Some(n) = serve_digits(dimensions, lent, line, &mut request, &mut reply, &mut text) {
        to.write_all(front(&text, n))?;
    }
    let (used, owed) = match tables::survey(dimensions, lent.seen()) {
        Ok(survey) => (survey.used, survey.owed),
        Err(_) => (0, 0),
    };
    writeln!(to, " {used} {owed}")
}

// Makes the store that a line asks for, or serves the line, in the part of the tables that the dimensions take. The result
// is the store's dimensions from then on.
fn act<W: Write>(
    to: &mut W,
    dimensions: Dimensions,
    sizes: &mut [u64],
    words: &mut [u32],
    memory: &mut [u8],
    line: &[u8],
) -> io::Result<Dimensions> {
    let (wanted, serves) = match asked(line) {
        Wish::Service => (dimensions, true),
        Wish::Store(wanted) => (wanted, false),
        Wish::Unclear => {
            writeln!(to, "-{}", Refusal::Geometry.number())?;
            return Ok(dimensions);
        }
    };
    let slots = wanted.files.saturating_mul(wanted.slots);
    let bytes = wanted.blocks.saturating_mul(wanted.block_size);
    if sizes.len() < wanted.files || words.len() < slots || memory.len() < bytes {
        writeln!(to, "too large")?;
        return Ok(dimensions);
    }
    let mut part = Lent {
        sizes: &mut sizes[..wanted.files],
        words: &mut words[..slots],
        memory: &mut memory[..bytes],
    };
    if serves {
        serve(to, dimensions, &mut part, line)?;
        return Ok(dimensions);
    }
    if let Err(refusal) = tables::make_empty(wanted, &mut part) {
        writeln!(to, "-{}", refusal.number())?;
        return Ok(dimensions);
    }
    to.write_all(line)?;
    writeln!(to)?;
    Ok(wanted)
}

// Answers a line on the tables.
fn answer<W: Write>(
    to: &mut W,
    dimensions: Dimensions,
    lent: &mut Lent<'_>,
    line: &[u8],
) -> io::Result<Dimensions> {
    let sizes = &mut *lent.sizes;
    let words = &mut *lent.words;
    let memory = &mut *lent.memory;
    act(to, dimensions, sizes, words, memory, line)
}

// Answers the lines that end in what was read, and keeps the line begun.
fn take_bytes<W: Write>(
    to: &mut W,
    dimensions: Dimensions,
    lent: &mut Lent<'_>,
    line: &mut Line<'_>,
    bytes: &[u8],
) -> io::Result<Dimensions> {
    let mut dimensions = dimensions;
    for byte in bytes {
        if *byte == b'\n' {
            dimensions = answer(to, dimensions, lent, line.text())?;
            line.length = 0;
        } else {
            line.push(*byte);
        }
    }
    Ok(dimensions)
}

// A proved loop has to end, and nothing says that the input does: no run uses up the turns.
fn take_all<R: Read, W: Write>(
    from: &mut R,
    to: &mut W,
    lent: &mut Lent<'_>,
    line: &mut Line<'_>,
    input: &mut [u8],
) -> io::Result<()> {
    let mut dimensions = frame::frame_geometry();
    for _ in 0..u64::MAX {
        let n = from.read(input)?;
        if n == 0 {
            if line.length != 0 {
                answer(to, dimensions, lent, line.text())?;
            }
            return Ok(());
        }
        dimensions = take_bytes(to, dimensions, lent, line, &input[..n])?;
    }
    Ok(())
}

// The line has one digit more than a compound may have.
fn main(rt: HostRuntime) -> io::Result<()> {
    let mut sizes = [0u64; SIZES];
    let mut words = [0u32; WORDS];
    let mut memory = [0u8; MEMORY];
    let mut lent = Lent {
        sizes: &mut sizes,
        words: &mut words,
        memory: &mut memory,
    };
    let mut buffer = [0u8; Request::KEPT];
    let mut line = Line {
        buffer: &mut buffer,
        length: 0,
    };
    let mut input = [0u8; INPUT];
    take_all(
        &mut rt.stdin(),
        &mut rt.stdout(),
        &mut lent,
        &mut line,
        &mut input,
    )
}
