// Parts of slices of bytes, and pads.
ghost use Rattle.std.specs.Prelude.{◌≡◌};
ghost use Rattle.xdr.specs.Encode.{pad_bytes};
ghost use Rattle.xdr.specs.Part.{PartPromise};

/// Where bytes stand in a slice: `len` of them from `start` on.
#[derive(Clone, Copy, Debug, PartialEq, Eq)]
pub struct Span {
    pub start: usize,
    pub len: usize,
}

/// The bytes of a span, as far as the slice has them.
#[tactic(auto, unfolding(crate::specs::Bytes::part_of))]
pub fn part(s: &[u8], d: Span) -> &[u8]
    ensures { PartPromise s.entry d result }
{
    if s.len() < d.start {
        return &s[..0];
    }
    if s.len() - d.start < d.len {
        return &s[d.start..];
    }
    &s[d.start..d.start + d.len]
}

/// How many zero bytes follow `n` bytes of opaque data.
pub fn padding(n: usize) -> usize
    ensures { result ≡ pad_bytes n }
{
    (4 - n % 4) % 4
}
