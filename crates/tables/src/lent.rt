// What is lent: the tables, of which nothing is known, and tables that have the lengths of their geometry.
ghost use Rattle.std.specs.Prelude.{◌≡◌, true};
ghost use Rattle.rules.specs.Store.{good_lengths};
ghost use Rattle.rules.proofs.GeometryLaws.{Lengths};
ghost use Rattle.tables.specs.Lent.{geometry_of, tables};

use crate::geometry::{Dimensions, Geometry};
use crate::refusal::Refusal;

/// The tables that a caller lends: file sizes, slot words, block memory.
#[derive(Drop)]
pub struct Lent<'a> {
    pub sizes: &'a mut [u64],
    pub words: &'a mut [u32],
    pub memory: &'a mut [u8],
}

/// The same, only looked at. What is shown of the memory does not hold the other tables.
#[derive(Clone, Copy)]
pub struct Seen<'t, 'a> {
    pub sizes: &'t [u64],
    pub words: &'t [u32],
    pub memory: &'a [u8],
}

/// Tables looked at that have the lengths of their geometry.
#[derive(Clone, Copy)]
pub struct View<'t, 'a> {
    pub geometry: Geometry,
    pub sizes: &'t [u64],
    pub words: &'t [u32],
    pub memory: &'a [u8],
    // `fits` follows from `lengths`: it stands here so that bounds are found.
    pub ghost lengths: { good_lengths (geometry_of geometry) (tables sizes.now words.now memory.now) ≡ true },
    pub ghost fits: { Lengths (geometry_of geometry) (tables sizes.now words.now memory.now) },
}

impl Lent<'_> {
    ghost use Rattle.tables.specs.Loans.{lent_store, seen_store};

    pub fn seen(&self) -> Seen<'_, '_>
        ensures { seen_store result ≡ lent_store self.now }
    {
        Seen {
            sizes: &*self.sizes,
            words: &*self.words,
            memory: &*self.memory,
        }
    }
}

impl<'t, 'a> Seen<'t, 'a> {
    ghost use Rattle.std.specs.Prelude.{IfOk};
    ghost use Rattle.rules.specs.Calls.{make_refusal};
    ghost use Rattle.tables.specs.Lent.{dimensions_of};
    ghost use Rattle.tables.specs.Loans.{seen_store, refusal_told};
    ghost use Rattle.tables.specs.Viewed.{view_store};

    /// The tables of these dimensions, if they lie inside the limits and the tables have their lengths.
    #[tactic(auto, unfolding(rules::specs::Store::good_lengths, rules::specs::Store::good_geometry, rules::specs::Store::good_block_size, rules::specs::Calls::make_refusal))]
    pub fn view(self, dimensions: Dimensions) -> Result<View<'t, 'a>, Refusal>
        ensures refusal { refusal_told result ≡ make_refusal (dimensions_of dimensions) (seen_store self.entry) }
        ensures geometry { IfOk result (λ v. geometry_of v.geometry ≡ dimensions_of dimensions) }
        ensures store { IfOk result (λ v. view_store v ≡ seen_store self.entry) }
    {
        let geometry = dimensions.geometry()?;
        let slots = geometry.files * geometry.slots;
        let bytes = geometry.blocks * geometry.block_size;
        if self.sizes.len() != geometry.files
            || self.words.len() != slots
            || self.memory.len() != bytes
        {
            return Err(Refusal::Length);
        }
        Ok(View {
            geometry,
            sizes: self.sizes,
            words: self.words,
            memory: self.memory,
        })
    }
}
