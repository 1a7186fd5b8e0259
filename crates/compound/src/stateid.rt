// Stateids: two special ones pass, and no other.
ghost use Rattle.std.specs.Prelude.{◌≡◌};
ghost use Rattle.xdr.specs.Bytes.{part_of};
ghost use Rattle.rules.specs.Run.{zero_stateid, read_stateid};

use xdr::Span;

const ZEROS: &[u8] = &[0; 16];

const ONES: &[u8] = &[255; 16];

/// Whether the stateid at d in request s passes for an edit.
#[tactic(auto, using(crate::proofs::SameLaws::same_is))]
pub fn zero_stateid(s: &[u8], d: Span) -> bool
    ensures { result ≡ zero_stateid (part_of s.now d) }
{
    xdr::part(s, d) == ZEROS
}

/// Whether it passes for reading, and as a source.
#[tactic(auto, using(crate::proofs::SameLaws::same_is))]
pub fn read_stateid(s: &[u8], d: Span) -> bool
    ensures { result ≡ read_stateid (part_of s.now d) }
{
    zero_stateid(s, d) || xdr::part(s, d) == ONES
}
