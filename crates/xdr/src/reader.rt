// A reader of values. After a fault its place is that of the fault: the first missing byte, or the first byte that is wrong.
ghost use Rattle.std.specs.Prelude.{◌≡◌};
ghost use Rattle.xdr.specs.Decode.{number, up_to, fixed_at, opaque_at, array_at, padded};
ghost use Rattle.xdr.specs.Layout.{boolean};
ghost use Rattle.xdr.specs.Reading.{parsed, itself};
ghost use Rattle.xdr.specs.declared.bytes.Span.{Span};

use crate::bytes::{Span, padding};

/// Bytes, and the place of the next one to read. The place may lie past their end.
#[derive(Clone, Copy)]
pub struct Reader<'a> {
    pub bytes: &'a [u8],
    pub at: usize,
}

impl<'a> Reader<'a> {
    /// The longest opaque data: XDR's own bound where a layout names none.
    pub const MAX_LENGTH: u32 = 4294967295;

    /// A reader of all the bytes.
    pub fn new(bytes: &'a [u8]) -> Self
        ensures bytes { result.bytes ≡ bytes.entry }
        ensures place { result.at ≡ 0 }
    {
        Reader { bytes, at: 0 }
    }

    /// A number of four bytes.
    #[tactic(auto, unfolding(crate::specs::Decode::number, crate::specs::Decode::fixed, crate::specs::Decode::fixed_at, crate::specs::Bytes::part_of))]
    pub fn u32(&mut self) -> Option<u32>
        ensures value { parsed itself result self.new.at ≡ number 4 self.old.bytes.now self.old.at }
        ensures bytes { self.new.bytes ≡ self.old.bytes }
    {
        let d = self.fixed(4)?;
        let b = &self.bytes[d.start..];
        Some(u32::from_be_bytes([b[0], b[1], b[2], b[3]]))
    }

    /// A number of eight bytes.
    #[tactic(auto, unfolding(crate::specs::Decode::number, crate::specs::Decode::fixed, crate::specs::Decode::fixed_at, crate::specs::Bytes::part_of))]
    pub fn u64(&mut self) -> Option<u64>
        ensures value { parsed itself result self.new.at ≡ number 8 self.old.bytes.now self.old.at }
        ensures bytes { self.new.bytes ≡ self.old.bytes }
    {
        let d = self.fixed(8)?;
        let b = &self.bytes[d.start..];
        Some(u64::from_be_bytes([b[0], b[1], b[2], b[3], b[4], b[5], b[6], b[7]]))
    }

    /// A number of four bytes that is at most `limit`: an enumeration, a length.
    #[tactic(auto, unfolding(crate::specs::Decode::up_to))]
    pub fn up_to(&mut self, limit: u32) -> Option<u32>
        ensures value { parsed itself result self.new.at ≡ up_to limit self.old.bytes.now self.old.at }
        ensures bytes { self.new.bytes ≡ self.old.bytes }
    {
        let at = self.at;
        let n = self.u32()?;
        if limit < n {
            self.at = at;
            return None;
        }
        Some(n)
    }

    pub fn boolean(&mut self) -> Option<bool>
        ensures value { parsed itself result self.new.at ≡ boolean.read self.old.bytes.now self.old.at }
        ensures bytes { self.new.bytes ≡ self.old.bytes }
    {
        Some(self.up_to(1)? == 1)
    }

    /// `n` bytes as they stand.
    #[tactic(auto, unfolding(crate::specs::Decode::fixed_at))]
    pub fn fixed(&mut self, n: usize) -> Option<Span>
        ensures value { parsed itself result self.new.at ≡ fixed_at n self.old.bytes.now self.old.at }
        ensures bytes { self.new.bytes ≡ self.old.bytes }
    {
        let end = self.bytes.len();
        if end < self.at || end - self.at < n {
            self.at = self.at.max(end);
            return None;
        }
        let start = self.at;
        self.at = start + n;
        Some(Span { start, len: n })
    }

    // `n` zero bytes.
    #[tactic(auto, using(crate::proofs::DecodeLaws::padded_step), unfolding(crate::specs::Decode::padded))]
    fn zeros(&mut self, n: usize) -> Option<()>
        ensures value { (d : Span) → parsed (λ _. d) result self.new.at ≡ padded n d self.old.bytes.now self.old.at }
        ensures bytes { self.new.bytes ≡ self.old.bytes }
    {
        for _ in 0..n {
            if self.at >= self.bytes.len() || self.bytes[self.at] != 0 {
                return None;
            }
            self.at += 1;
        }
        Some(())
    }

    /// Opaque data of at most `limit` bytes: its length, its bytes and a zero pad.
    #[tactic(auto, unfolding(crate::specs::Decode::opaque_at))]
    pub fn opaque(&mut self, limit: u32) -> Option<Span>
        ensures value { parsed itself result self.new.at ≡ opaque_at limit self.old.bytes.now self.old.at }
        ensures bytes { self.new.bytes ≡ self.old.bytes }
    {
        let n = self.up_to(limit)? as usize;
        let d = self.fixed(n)?;
        self.zeros(padding(n))?;
        Some(d)
    }

    /// An array of at most `limit` numbers of four bytes: its length, then the bytes of all.
    #[tactic(auto, unfolding(crate::specs::Decode::array_at))]
    pub fn array(&mut self, limit: u32) -> Option<Span>
        ensures value { parsed itself result self.new.at ≡ array_at limit self.old.bytes.now self.old.at }
        ensures bytes { self.new.bytes ≡ self.old.bytes }
    {
        let n = self.up_to(limit)?;
        self.fixed(4 * (n as usize))
    }
}
