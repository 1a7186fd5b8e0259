// GETATTR: which attributes a bitmap asks for, and the result that shows them.
ghost use Rattle.std.specs.Prelude.{◌≡◌, cond, [], ◌+◌, ◌/◌, ◌%◌, ◌<◌, ◌≤◌, length, get_or, eqb};
ghost use Rattle.xdr.specs.Bytes.{part_of};
ghost use Rattle.xdr.specs.Writing.{Wrote, HasRoom};
ghost use Rattle.xdr.specs.Encode.{u32, u64, array};
ghost use Rattle.xdr.specs.Decode.{numbers};
ghost use Rattle.rules.specs.Attributes.{supported, select, bitmap_length, bitmap};
ghost use Rattle.rules.specs.Operation.{attrs_reply};
ghost use Rattle.wire.specs.Attrs.{asks, AsksAs, attrs_of, bitmap_bytes, value_bytes};

use xdr::{Reader, Span, Writer};

/// The attributes that are asked for.
#[derive(Clone, Copy, Debug, PartialEq, Eq)]
pub struct Asked {
    pub supported_attrs: bool,
    pub size: bool,
    pub space_used: bool,
    pub clone_blksize: bool,
    pub space_freed: bool,
}

/// What a file's attributes say; the value of supported_attrs is the same for all files.
#[derive(Clone, Copy, Debug, PartialEq, Eq)]
pub struct FileAttrs {
    pub size: u64,
    pub space_used: u64,
    pub clone_blksize: u32,
    pub space_freed: u64,
}

impl Asked {
    /// The attributes' bits: two in the first word of a bitmap, one in the second, two in the third.
    pub const SUPPORTED_ATTRS: u32 = 1;

    pub const SIZE: u32 = 16;

    pub const SPACE_USED: u32 = 8192;

    pub const CLONE_BLKSIZE: u32 = 8192;

    pub const SPACE_FREED: u32 = 16384;

    /// All that we have.
    pub fn all() -> Self
        ensures { bitmap_bytes result ≡ array (bitmap supported) }
    {
        Asked {
            supported_attrs: true,
            size: true,
            space_used: true,
            clone_blksize: true,
            space_freed: true,
        }
    }
}

// ---- what is asked for

// Word i of the bitmap whose words stand at d; 0 behind its end.
fn bitmap_word(s: &[u8], d: Span, i: usize) -> u32
    requires { i < 4 }
    ensures { result ≡ get_or (numbers (part_of s.now d)) i 0 }
{
    let mut r = Reader {
        bytes: xdr::part(s, d),
        at: 4 * i,
    };
    r.u32().unwrap_or(0)
}

fn has_bit(w: u32, bit: u32) -> bool
    requires { 0 < bit }
    ensures { result ≡ eqb (w / bit % 2) 1 }
{
    w / bit % 2 == 1
}

/// What the bitmap whose words stand at d asks for.
pub fn asked_in(s: &[u8], d: Span) -> Asked
    ensures { AsksAs (numbers (part_of s.now d)) result }
{
    let first = bitmap_word(s, d, 0);
    let second = bitmap_word(s, d, 1);
    let third = bitmap_word(s, d, 2);
    Asked {
        supported_attrs: has_bit(first, Asked::SUPPORTED_ATTRS),
        size: has_bit(first, Asked::SIZE),
        space_used: has_bit(second, Asked::SPACE_USED),
        clone_blksize: has_bit(third, Asked::CLONE_BLKSIZE),
        space_freed: has_bit(third, Asked::SPACE_FREED),
    }
}

// ---- the bitmap of the result

// The bit of an attribute that is asked for, else 0.
fn bit_if(asked: bool, bit: u32) -> u32
    ensures { result ≡ cond asked bit 0 }
{
    if asked { bit } else { 0 }
}

// How many words it has: the last is not zero.
fn bitmap_words(a: Asked) -> usize
    ensures { result ≡ bitmap_length (select (asks a) supported) }
{
    if a.space_freed || a.clone_blksize {
        return 3;
    }
    if a.space_used {
        return 2;
    }
    if a.size || a.supported_attrs {
        return 1;
    }
    0
}

fn put_bitmap(w: &mut Writer<'_>, a: Asked)
    requires { HasRoom 16 w.old }
    ensures { Wrote (bitmap_bytes a) w.old w.new }
{
    let words = [
        bit_if(a.supported_attrs, Asked::SUPPORTED_ATTRS) + bit_if(a.size, Asked::SIZE),
        bit_if(a.space_used, Asked::SPACE_USED),
        bit_if(a.clone_blksize, Asked::CLONE_BLKSIZE) + bit_if(a.space_freed, Asked::SPACE_FREED),
    ];
    w.array(&words[..bitmap_words(a)]);
}

// ---- the values, each where it is asked for

// The bitmap of all that we have.
#[tactic(auto, using(xdr::proofs::WritingLaws::wrote_none, crate::proofs::AttrLaws::supported_size))]
fn put_supported_if(w: &mut Writer<'_>, asked: bool)
    requires { HasRoom 16 w.old }
    ensures value { Wrote (cond asked (array (bitmap supported)) []) w.old w.new }
    ensures bound { w.new.at ≤ w.old.at + 16 }
{
    if asked {
        put_bitmap(w, Asked::all());
    }
}

#[tactic(auto, using(xdr::proofs::WritingLaws::wrote_none))]
fn put_if(w: &mut Writer<'_>, asked: bool, value: &[u8])
    requires { HasRoom (length value.now) w.old }
    ensures value { Wrote (cond asked value.now []) w.old w.new }
    ensures bound { w.new.at ≤ w.old.at + length value.now }
{
    if asked {
        w.bytes(value);
    }
}

// In rising attribute number.
fn put_values(w: &mut Writer<'_>, a: Asked, v: FileAttrs)
    requires { HasRoom 44 w.old }
    ensures { Wrote (value_bytes a v) w.old w.new }
{
    put_supported_if(w, a.supported_attrs);
    put_if(w, a.size, &v.size.to_be_bytes());
    put_if(w, a.space_used, &v.space_used.to_be_bytes());
    put_if(w, a.clone_blksize, &v.clone_blksize.to_be_bytes());
    put_if(w, a.space_freed, &v.space_freed.to_be_bytes());
}

// ---- the result's body: the bitmap, then the values as one opaque, whose length is known when they are written

#[tactic(auto, using(xdr::proofs::EncodeLaws::lengths))]
pub fn put_attrs(w: &mut Writer<'_>, a: Asked, v: FileAttrs)
    requires { HasRoom 64 w.old }
    ensures { Wrote (attrs_reply (attrs_of v) (asks a)) w.old w.new }
{
    put_bitmap(w, a);
    let place = w.at;
    w.u32(0);
    put_values(w, a, v);
    w.set_u32(place, (w.at - place - 4) as u32);
}
