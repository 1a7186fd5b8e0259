// A writer of values over bytes that are lent to it. Each encoding goes over the bytes at its place, and no other byte changes.
ghost use Rattle.std.specs.Prelude.{◌≡◌, ◌+◌, ◌*◌, ◌^◌, ◌<◌, ◌≤◌, length, replicate};
ghost use Rattle.xdr.specs.Bytes.{splice};
ghost use Rattle.xdr.specs.Encode.{u32, u64, bool, opaque, opaque_size, concat_map, array};
ghost use Rattle.xdr.specs.Writing.{Wrote, WroteOver, HasRoom};

use crate::bytes::padding;

// One by one: std's copy is a memmove, a name more that an archive for C would need from outside.
fn copy(to: &mut [u8], from: &[u8])
    requires { length to.old ≡ length from.now }
    ensures { to.new ≡ from.now }
{
    for i in 0..from.len() {
        to[i] = from[i];
    }
}

#[tactic(auto, unfolding(crate::specs::Bytes::splice))]
fn store(out: &mut [u8], at: usize, d: &[u8])
    requires { at + length d.now ≤ length out.old }
    ensures { out.new ≡ splice out.old at d.now }
{
    copy(&mut out[at..at + d.len()], d);
}

#[tactic(auto, unfolding(crate::specs::Bytes::splice))]
fn clear(out: &mut [u8], at: usize, n: usize)
    requires { at + n ≤ length out.old }
    ensures { out.new ≡ splice out.old at (replicate n 0) }
{
    out[at..at + n].fill(0);
}

/// Bytes, and the place where the next value goes.
#[derive(Drop)]
pub struct Writer<'a> {
    pub out: &'a mut [u8],
    pub at: usize,
}

impl<'a> Writer<'a> {
    /// Bytes as they stand.
    pub fn bytes(&mut self, d: &[u8])
        requires { HasRoom (length d.now) self.old }
        ensures { Wrote d.now self.old self.new }
    {
        let at = self.at;
        let out = &mut *self.out;
        store(out, at, d);
        self.at = at + d.len();
    }

    pub fn zeros(&mut self, n: usize)
        requires { HasRoom n self.old }
        ensures { Wrote (replicate n 0) self.old self.new }
    {
        let at = self.at;
        let out = &mut *self.out;
        clear(out, at, n);
        self.at = at + n;
    }

    /// A number of four bytes.
    #[tactic(auto, unfolding(crate::specs::Encode::u32, crate::specs::Encode::be))]
    pub fn u32(&mut self, v: u32)
        requires { HasRoom 4 self.old }
        ensures { Wrote (u32 v) self.old self.new }
    {
        self.bytes(&v.to_be_bytes());
    }

    /// A number of eight bytes.
    #[tactic(auto, unfolding(crate::specs::Encode::u64, crate::specs::Encode::be))]
    pub fn u64(&mut self, x: u64)
        requires { HasRoom 8 self.old }
        ensures { Wrote (u64 x) self.old self.new }
    {
        self.bytes(&x.to_be_bytes());
    }

    #[tactic(auto, unfolding(crate::specs::Encode::bool))]
    pub fn boolean(&mut self, b: bool)
        requires { HasRoom 4 self.old }
        ensures { Wrote (bool b) self.old self.new }
    {
        self.u32(u32::from(b));
    }

    /// Opaque data: its length, its bytes and a zero pad.
    #[tactic(auto, using(crate::proofs::EncodeLaws::lengths), unfolding(crate::specs::Encode::opaque))]
    pub fn opaque(&mut self, d: &[u8])
        requires { (length d.now < 2 ^ 32) × HasRoom (opaque_size (length d.now)) self.old }
        ensures { Wrote (opaque d.now) self.old self.new }
    {
        self.u32(d.len() as u32);
        self.bytes(d);
        self.zeros(padding(d.len()));
    }

    // Numbers, each in four bytes.
    fn numbers(&mut self, ns: &[u32])
        requires { HasRoom (4 * length ns.now) self.old }
        ensures { Wrote (concat_map u32 ns.now) self.old self.new }
    {
        for n in ns {
            self.u32(*n);
        }
    }

    /// An array of numbers: its length, then the numbers.
    #[tactic(auto, using(crate::proofs::EncodeLaws::lengths), unfolding(crate::specs::Encode::array))]
    pub fn array(&mut self, ns: &[u32])
        requires { (length ns.now < 2 ^ 32) × HasRoom (4 + 4 * length ns.now) self.old }
        ensures { Wrote (array ns.now) self.old self.new }
    {
        self.u32(ns.len() as u32);
        self.numbers(ns);
    }

    /// Puts a number over the four bytes at another place. The next value goes where it would have gone.
    #[tactic(auto, unfolding(crate::specs::Encode::u32, crate::specs::Encode::be))]
    pub fn set_u32(&mut self, place: usize, n: u32)
        requires { place + 4 ≤ length self.old.out.now }
        ensures { WroteOver place (u32 n) self.old self.new }
    {
        let out = &mut *self.out;
        store(out, place, &n.to_be_bytes());
    }
}
