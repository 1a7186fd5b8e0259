// Runs XDR vectors through the readers and writers. A line of output says what was read and the place after it, or
// 'fault' and its place. The expected output is worked out by hand from RFC 4506, whose section 7 has the file.
#![tactic(auto)]

ghost use Rattle.std.specs.Prelude.{◌≤◌, length};

use std::io::Write;
use std::{fmt, io};
use xdr::{Reader, Span, Writer};

// Bytes in hexadecimal.
#[derive(Clone, Copy)]
struct Hex<'a>(&'a [u8]);

impl fmt::Display for Hex<'_> {
    fn fmt<W: fmt::Write>(&self, f: &mut fmt::Formatter<W>) -> fmt::Result {
        for b in self.0 {
            write!(f, "{b:02x}")?;
        }
        Ok(())
    }
}

// A number, read up to `at`.
fn show_number<W: Write>(to: &mut W, number: Option<u64>, at: usize) -> io::Result<()> {
    match number {
        Some(n) => writeln!(to, "{n} next {at}"),
        None => writeln!(to, "fault {at}"),
    }
}

// A part of the reader's bytes, which it has read.
fn show_part<W: Write>(to: &mut W, part: Option<Span>, r: Reader<'_>) -> io::Result<()> {
    match part {
        Some(d) => writeln!(to, "0x{} next {}", Hex(xdr::part(r.bytes, d)), r.at),
        None => writeln!(to, "fault {}", r.at),
    }
}

fn show_u32<W: Write>(to: &mut W, bytes: &[u8], at: usize) -> io::Result<()> {
    let mut r = Reader { bytes, at };
    let number = r.u32();
    show_number(to, number.map(u64::from), r.at)
}

fn show_u64<W: Write>(to: &mut W, bytes: &[u8], at: usize) -> io::Result<()> {
    let mut r = Reader { bytes, at };
    let number = r.u64();
    show_number(to, number, r.at)
}

fn show_opaque<W: Write>(to: &mut W, bytes: &[u8], at: usize, limit: u32) -> io::Result<()> {
    let mut r = Reader { bytes, at };
    let part = r.opaque(limit);
    show_part(to, part, r)
}

fn show_array<W: Write>(to: &mut W, bytes: &[u8], at: usize, limit: u32) -> io::Result<()> {
    let mut r = Reader { bytes, at };
    let part = r.array(limit);
    show_part(to, part, r)
}

// The file of RFC 4506, section 7, in its 48 bytes.
#[tactic(auto, using(xdr::proofs::EncodeLaws::lengths, xdr::proofs::EncodeLaws::long_lengths))]
fn put_file(file: &mut [u8; 48]) {
    let mut w = Writer { out: file, at: 0 };
    w.opaque(b"sillyprog");
    w.u32(2);
    w.opaque(b"lisp");
    w.opaque(b"john");
    w.opaque(b"(quit)");
}

// The file read back: name, kind, interpreter, owner, data.
fn show_file<W: Write>(to: &mut W, file: &[u8]) -> io::Result<()> {
    let mut r = Reader::new(file);
    let name = r.opaque(255);
    show_part(to, name, r)?;
    let kind = r.up_to(2);
    show_number(to, kind.map(u64::from), r.at)?;
    for limit in [255, 32, 65535] {
        let part = r.opaque(limit);
        show_part(to, part, r)?;
    }
    Ok(())
}

// The name, cut at every byte.
fn show_cuts<W: Write>(to: &mut W, file: &[u8; 48]) -> io::Result<()> {
    for n in 0..17 {
        show_opaque(to, &file[..n], 0, 255)?;
    }
    Ok(())
}

// Opaque data, at their length as limit and at one less.
#[tactic(auto, using(xdr::proofs::EncodeLaws::long_lengths))]
fn show_length<W: Write>(to: &mut W, text: &[u8]) -> io::Result<()>
    requires { length text.now ≤ 4 }
{
    let mut out = [0xff; 16];
    let mut w = Writer {
        out: &mut out,
        at: 2,
    };
    w.opaque(text);
    let shown = Span {
        start: 0,
        len: w.at + 1,
    };
    writeln!(to, "{}", Hex(xdr::part(&out, shown)))?;
    let limit = text.len() as u32;
    show_opaque(to, &out, 2, limit)?;
    if limit == 0 {
        return Ok(());
    }
    show_opaque(to, &out, 2, limit - 1)
}

fn show_lengths<W: Write>(to: &mut W) -> io::Result<()> {
    for n in 0..5 {
        show_length(to, &b"wxyz"[..n])?;
    }
    Ok(())
}

#[tactic(auto, using(xdr::proofs::EncodeLaws::lengths))]
fn show_numbers<W: Write>(to: &mut W) -> io::Result<()> {
    let mut out = [0xff; 24];
    let mut w = Writer {
        out: &mut out,
        at: 0,
    };
    w.u32(4293844428);
    w.u64(72623859790382856);
    w.boolean(true);
    w.boolean(false);
    writeln!(to, "{}", Hex(&out))?;
    show_u32(to, &out, 0)?;
    show_u64(to, &out, 4)?;
    for at in [12, 16, 0] {
        let mut r = Reader { bytes: &out, at };
        let b = r.boolean();
        show_number(to, b.map(u64::from), r.at)?;
    }
    for at in [20, 21] {
        show_u32(to, &out, at)?;
    }
    for at in [17, 24] {
        show_u64(to, &out, at)?;
    }
    show_u32(to, &out, 25)?;
    for (at, n) in [(4, 0), (8, 16), (8, 17), (30, 0)] {
        let mut r = Reader { bytes: &out, at };
        let part = r.fixed(n);
        show_part(to, part, r)?;
    }
    Ok(())
}

// Damaged pads, and a pad that is cut behind a damaged byte.
fn show_pads<W: Write>(to: &mut W) -> io::Result<()> {
    show_opaque(to, b"\x00\x00\x00\x01a\x01\x00\x00", 0, 1)?;
    show_opaque(to, b"\x00\x00\x00\x01a\x00\x00\x01", 0, 1)?;
    show_opaque(to, b"\x00\x00\x00\x01a\x00\x01", 0, 1)?;
    show_opaque(to, b"\x00\x00\x00\x01a\x00\x00", 0, 1)
}

// An array of three numbers at its length, at a shorter limit and cut in its length and in its last number; and one of none.
#[tactic(auto, using(xdr::proofs::EncodeLaws::long_lengths))]
fn show_arrays<W: Write>(to: &mut W) -> io::Result<()> {
    let mut out = [0xff; 20];
    let mut w = Writer {
        out: &mut out,
        at: 0,
    };
    w.array(&[17, 8192, 24576]);
    w.array(&[]);
    writeln!(to, "{}", Hex(&out))?;
    for (at, limit) in [(0, 3), (0, 2), (16, 0)] {
        show_array(to, &out, at, limit)?;
    }
    show_array(to, &out[..3], 0, 3)?;
    show_array(to, &out[..15], 0, 3)
}

fn main(rt: HostRuntime) -> io::Result<()> {
    let to = &mut rt.stdout();
    let mut file = [0; 48];
    put_file(&mut file);
    writeln!(to, "{}", Hex(&file))?;
    show_file(to, &file)?;
    show_cuts(to, &file)?;
    show_lengths(to)?;
    show_numbers(to)?;
    show_pads(to)?;
    show_arrays(to)
}
