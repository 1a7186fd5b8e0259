// What becomes of a slot of an edit's region.
// The tables travel one by one: over one struct the proof is no shorter and the loop no faster.
ghost use Rattle.std.specs.Prelude.{◌≡◌, cond, ◌*◌, ◌<◌, ◌≤◌, length};
ghost use Rattle.rules.specs.Store.{is_hole};
ghost use Rattle.rules.specs.Edit.{covers, given, goes_first, owns, stays};
ghost use Rattle.tables.specs.Lent.{geometry_of};
ghost use Rattle.store.specs.Edits.{kind_from};
ghost use Rattle.store.specs.Planner.{SlotOf, CopySlot, MatchedIs, CopyKindIs, KindIs, in_pass};

use crate::edit::{Act, Edit, Kind, Pass, Source};
use crate::seek::hole_at;
use tables::Geometry;

// Whether the bytes of slot k below the size, at least one, all lie in the region.
#[tactic(auto, unfolding(rules::specs::Edit::covers))]
fn covered(g: Geometry, size: usize, off: usize, end: usize, k: usize) -> bool
    requires { k < g.slots }
    ensures { result ≡ covers (geometry_of g) size off end k }
{
    let start = k * g.block_size;
    off <= start && start < size && (start + g.block_size).min(size) <= end
}

// What a DEALLOCATE makes of slot k, whose word is w.
fn cut_kind(g: Geometry, size: usize, off: usize, end: usize, k: usize, w: u32) -> Kind
    requires { k < g.slots }
    ensures { kind_from result ≡ cond (covers (geometry_of g) size off end k) given (cond (is_hole w) stays owns) }
{
    if covered(g, size, off, end, k) {
        return Kind::Given;
    }
    if w / 2 == 0 {
        return Kind::Stays;
    }
    Kind::Owns
}

// Whether the places of slot k in the region of e are matched by holes of the source alone. Their matches are at most B places in a row: they
// lie in the slots of the first and the last of them.
fn from_holes(g: Geometry, words: &[u32], e: &Edit<'_>, s: Source, k: usize) -> bool
    requires { CopySlot (geometry_of g) e.now s words.now k × (e.now.off ≤ k * g.block_size) }
    ensures { MatchedIs (geometry_of g) e.now s words.now k result }
{
    let start = k * g.block_size;
    let end = e.end.min(start + g.block_size);
    let i = s.off + (start - e.off);
    hole_at(g, words, s.file, i) && hole_at(g, words, s.file, i + (end - start - 1))
}

// What a COPY from s makes of slot k.
fn copy_kind(g: Geometry, words: &[u32], e: &Edit<'_>, s: Source, size: usize, k: usize) -> Kind
    requires { CopySlot (geometry_of g) e.now s words.now k }
    ensures { CopyKindIs (geometry_of g) e.now s size words.now k (kind_from result) }
{
    if covered(g, size.max(e.end), e.off, e.end, k) && from_holes(g, words, e, s, k) {
        return Kind::Cleared;
    }
    Kind::Owns
}

/// What becomes of slot k of e's file, whose size is `size`; w is the slot's word before the edit. Of `words` only those of other files count.
pub fn kind_of(g: Geometry, words: &[u32], e: &Edit<'_>, size: usize, k: usize, w: u32) -> Kind
    requires { SlotOf (geometry_of g) e.now k × (length words.now ≡ (geometry_of g).F * (geometry_of g).S) }
    ensures { KindIs (geometry_of g) e.now size words.now k w (kind_from result) }
{
    match e.act {
        Act::Write(_) => Kind::Owns,
        Act::Copy(s) => copy_kind(g, words, e, s, size, k),
        Act::Clone(s) => Kind::Shares(
            s.file * g.slots + s.off / g.block_size + (k - e.off / g.block_size),
        ),
        Act::Allocate => Kind::Reserved,
        Act::Deallocate => cut_kind(g, size, e.off, e.end, k, w),
    }
}

impl Kind {
    // Whether a slot of that kind becomes a hole.
    fn becomes_hole(self) -> bool
        ensures { result ≡ goes_first (kind_from self) }
    {
        matches!(self, Kind::Given | Kind::Cleared)
    }
}

impl Pass {
    /// Whether the pass changes a slot of that kind.
    pub fn takes(self, kind: Kind) -> bool
        ensures { result ≡ in_pass self (kind_from kind) }
    {
        match self {
            Pass::Holes => kind.becomes_hole(),
            Pass::Others => !kind.becomes_hole(),
        }
    }
}
