// Whether a store is sound, and its used and owed blocks, by one table of holders.
ghost use Rattle.std.specs.Prelude.{◌≡◌, ◌≤◌, is_some, IfSome, replicate};
ghost use Rattle.rules.specs.Attributes.{slots_of};
ghost use Rattle.rules.specs.Calls.{SurveyPromise};
ghost use Rattle.tables.specs.Lent.{geometry_of, dimensions_of};
ghost use Rattle.tables.specs.Loans.{seen_store, refusal_told};
ghost use Rattle.tables.specs.Survey.{tables_pass, file_passes, FileReady, TableJudged, used_told, owed_told};
ghost use Rattle.tables.specs.Tally.{SlotsCounted, RoomKnown};
ghost use Rattle.tables.specs.Viewed.{view_store};

use crate::counted::{Counted, Survey};
use crate::files::{file_sound, slots_of};
use crate::geometry::{Dimensions, Geometry};
use crate::lent::{Seen, View};
use crate::pool::{fits_of, owed_of, used_blocks};
use crate::refusal::Refusal;
use crate::tally::scan_and_note;

// Tests a file, and notes its slots; those behind its end hold nothing.
fn test_file(view: View<'_, '_>, counts: &mut [u32], file: usize) -> Option<Counted>
    requires { FileReady (geometry_of view.geometry) (view_store view) counts.old file }
    ensures passes { is_some result ≡ file_passes (geometry_of view.entry.geometry) (view_store view.entry) file }
    ensures counted { IfSome result (λ c. SlotsCounted (slots_of (geometry_of view.entry.geometry) view.entry.words.now file) counts.old c.held c.reserved counts.new) }
{
    let geometry = view.geometry;
    let size = view.sizes[file];
    if ((geometry.slots * geometry.block_size) as u64) < size {
        return None;
    }
    let slots = slots_of(size as usize, geometry.block_size);
    let at = file * geometry.slots;
    let end = at + slots;
    let counted = scan_and_note(&view.words[at..end], counts)?;
    if !file_sound(view, file) {
        return None;
    }
    Some(counted)
}

// Tests tables file by file. `counts` has a zero for each block; where they pass it is the table of holders afterwards.
fn test_tables(view: View<'_, '_>, counts: &mut [u32]) -> Option<Counted>
    requires { counts.old ≡ replicate view.geometry.blocks 0 }
    ensures passes { is_some result ≡ tables_pass (geometry_of view.entry.geometry) (view_store view.entry) }
    ensures counted { IfSome result (λ c. RoomKnown c.held c.reserved view.entry.words.now counts.new) }
{
    let mut held = 0;
    let mut reserved = false;
    for file in 0..view.geometry.files {
        let counted = test_file(view, counts, file)?;
        held += counted.held;
        reserved |= counted.reserved;
    }
    Some(Counted { held, reserved })
}

/// Whether the store is sound. Nothing is counted that need not be.
pub fn judge_tables(view: View<'_, '_>, counts: &mut [u32]) -> bool
    requires { counts.old ≡ replicate view.geometry.blocks 0 }
    ensures { TableJudged (geometry_of view.entry.geometry) (view_store view.entry) result counts.new }
{
    let Some(counted) = test_tables(view, counts) else {
        return false;
    };
    fits_of(counted, view.words, counts)
}

// The used and owed blocks, by a table that has a zero for each block.
fn survey_in(view: View<'_, '_>, counts: &mut [u32]) -> Result<Survey, Refusal>
    requires { counts.old ≡ replicate view.geometry.blocks 0 }
    ensures { SurveyPromise (geometry_of view.entry.geometry) (view_store view.entry) (refusal_told result) (used_told result) (owed_told result) }
{
    let Some(counted) = test_tables(view, counts) else {
        return Err(Refusal::Unsound);
    };
    let used = used_blocks(counts);
    let owed = owed_of(counted, used, view.words, counts);
    if view.geometry.blocks < used + owed {
        return Err(Refusal::Unsound);
    }
    Ok(Survey { used, owed })
}

// The same with a table of its own, in a frame of its own: a small table is cleared faster.
#[inline(never)]
fn survey_with<const N: usize>(view: View<'_, '_>) -> Result<Survey, Refusal>
    requires fits { view.geometry.blocks ≤ N }
    requires small { N ≤ 65536 }
    ensures { SurveyPromise (geometry_of view.entry.geometry) (view_store view.entry) (refusal_told result) (used_told result) (owed_told result) }
{
    let mut counts = [0u32; N];
    survey_in(view, &mut counts[..view.geometry.blocks])
}

/// The survey of tables that have their lengths. Pools of few blocks have smaller tables.
pub fn survey_tables(view: View<'_, '_>) -> Result<Survey, Refusal>
    ensures { SurveyPromise (geometry_of view.entry.geometry) (view_store view.entry) (refusal_told result) (used_told result) (owed_told result) }
{
    match view.geometry.blocks {
        ..=Geometry::SMALL_POOL => survey_with::<{ Geometry::SMALL_POOL }>(view),
        ..=Geometry::MIDDLE_POOL => survey_with::<{ Geometry::MIDDLE_POOL }>(view),
        _ => survey_with::<{ Geometry::MAX_BLOCKS }>(view),
    }
}

/// The used and owed blocks of a sound store, or a refusal.
#[tactic(auto, unfolding(rules::specs::Calls::make_refusal, rules::specs::Calls::store_refusal, rules::specs::Calls::used_count, rules::specs::Calls::owed_count))]
pub fn survey(dimensions: Dimensions, seen: Seen<'_, '_>) -> Result<Survey, Refusal>
    ensures { SurveyPromise (dimensions_of dimensions) (seen_store seen.entry) (refusal_told result) (used_told result) (owed_told result) }
{
    survey_tables(seen.view(dimensions)?)
}
