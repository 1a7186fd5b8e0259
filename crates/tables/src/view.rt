// One slot shown without copying: its part of the block memory, or the zero page that the caller lends.
ghost use Rattle.std.specs.Prelude.{◌≡◌, ◌<◌, IfOk};
ghost use Rattle.rules.specs.Calls.{slot_refusal};
ghost use Rattle.tables.specs.Lent.{geometry_of, dimensions_of};
ghost use Rattle.tables.specs.Loans.{seen_store, refusal_told};
ghost use Rattle.tables.specs.View.{PlacePromise, ViewPromise, hole_told, start_told};
ghost use Rattle.tables.specs.Viewed.{view_store};

use crate::files::zero_bytes;
use crate::geometry::Dimensions;
use crate::lent::{Seen, View};
use crate::refusal::Refusal;
use crate::sound::survey_tables;

/// Where a slot's part starts: in the memory, or for a hole in the page.
#[derive(Clone, Copy, Debug)]
pub struct Place {
    pub hole: bool,
    pub start: usize,
}

// The tables where a slot can be shown.
#[tactic(auto, unfolding(rules::specs::Calls::make_refusal, rules::specs::Calls::store_refusal, rules::specs::Calls::slot_refusal))]
fn slot_tables<'t, 'a>(
    dimensions: Dimensions,
    seen: Seen<'t, 'a>,
    page: &[u8],
    file: usize,
    slot: usize,
) -> Result<View<'t, 'a>, Refusal>
    ensures refusal { refusal_told result ≡ slot_refusal (dimensions_of dimensions) (seen_store seen.entry) page.now file slot }
    ensures slot { IfOk result (λ v. (file < v.geometry.files) × (slot < v.geometry.slots)) }
    ensures same { IfOk result (λ v. (geometry_of v.geometry ≡ dimensions_of dimensions) × (view_store v ≡ seen_store seen.entry)) }
{
    let view = seen.view(dimensions)?;
    if page.len() != view.geometry.block_size {
        return Err(Refusal::Length);
    }
    survey_tables(view)?;
    if !zero_bytes(page) {
        return Err(Refusal::Unsound);
    }
    if view.geometry.files <= file || view.geometry.slots <= slot {
        return Err(Refusal::NoSlot);
    }
    Ok(view)
}

/// Which of the two slices has the slot's part, and where it starts there.
#[tactic(auto, unfolding(rules::specs::Calls::slot_is_hole, rules::specs::Calls::slot_start))]
pub fn slot_place(
    dimensions: Dimensions,
    seen: Seen<'_, '_>,
    page: &[u8],
    file: usize,
    slot: usize,
) -> Result<Place, Refusal>
    ensures { PlacePromise (dimensions_of dimensions) (seen_store seen.entry) page.now file slot (refusal_told result) (hole_told result) (start_told result) }
{
    let view = slot_tables(dimensions, seen, page, file, slot)?;
    let block = (view.words[file * view.geometry.slots + slot] / 2) as usize;
    if block == 0 {
        return Ok(Place {
            hole: true,
            start: 0,
        });
    }
    Ok(Place {
        hole: false,
        start: (block - 1) * view.geometry.block_size,
    })
}

/// The slot's part; on a refusal the page's empty start.
#[tactic(auto, unfolding(rules::specs::Calls::slot_view, rules::specs::Calls::slot_is_hole, rules::specs::Calls::slot_start))]
pub fn slot_view<'a>(
    dimensions: Dimensions,
    seen: Seen<'_, 'a>,
    page: &'a [u8],
    file: usize,
    slot: usize,
) -> &'a [u8]
    ensures { ViewPromise (dimensions_of dimensions) (seen_store seen.entry) seen.entry.memory page.entry file slot result }
{
    let Ok(place) = slot_place(dimensions, seen, page, file, slot) else {
        return &page[0..0];
    };
    if place.hole {
        return page;
    }
    let end = place.start + dimensions.block_size;
    &seen.memory[place.start..end]
}
