// The geometry of the lent tables.
ghost use Rattle.std.specs.Prelude.{◌≡◌, true, IfOk, IfErr, is_ok};
ghost use Rattle.rules.specs.Store.{good_geometry};
ghost use Rattle.rules.proofs.GeometryLaws.{Good};
ghost use Rattle.tables.specs.Dimensions.{numbers};

use crate::refusal::Refusal;

/// What a caller says of its tables, any numbers: files, slots per file, blocks in the pool, bytes of a block.
#[derive(Clone, Copy, Debug)]
pub struct Dimensions {
    pub files: usize,
    pub slots: usize,
    pub blocks: usize,
    pub block_size: usize,
}

/// Those numbers where they lie inside the limits.
#[derive(Clone, Copy, Debug)]
pub struct Geometry {
    pub files: usize,
    pub slots: usize,
    pub blocks: usize,
    pub block_size: usize,
    // `limits` follows from `good`: it stands here so that bounds are found.
    pub ghost good: { good_geometry (numbers files slots blocks block_size) ≡ true },
    pub ghost limits: { Good (numbers files slots blocks block_size) },
}

impl Geometry {
    pub const MAX_FILES: usize = 64;

    pub const MAX_SLOTS: usize = 1024;

    pub const MAX_BLOCKS: usize = 65536;

    /// The largest block.
    pub const MAX_BLOCK: usize = 4096;

    /// Pools of at most so many blocks have smaller local tables.
    pub const SMALL_POOL: usize = 256;

    pub const MIDDLE_POOL: usize = 4096;
}

impl Dimensions {
    ghost use Rattle.tables.specs.Lent.{geometry_of, dimensions_of};

    /// The geometry of these numbers, if they lie inside the limits.
    #[tactic(auto, unfolding(rules::specs::Store::good_geometry, rules::specs::Store::good_block_size))]
    pub fn geometry(self) -> Result<Geometry, Refusal>
        ensures good { is_ok result ≡ good_geometry (dimensions_of self) }
        ensures same { IfOk result (λ g. geometry_of g ≡ dimensions_of self) }
        ensures refusal { IfErr result (λ r. r ≡ Refusal.Geometry) }
    {
        if !(1..=Geometry::MAX_FILES).contains(&self.files) {
            return Err(Refusal::Geometry);
        }
        if !(1..=Geometry::MAX_SLOTS).contains(&self.slots) {
            return Err(Refusal::Geometry);
        }
        if !(1..=Geometry::MAX_BLOCKS).contains(&self.blocks) {
            return Err(Refusal::Geometry);
        }
        if !matches!(self.block_size, 512 | 1024 | 2048 | Geometry::MAX_BLOCK) {
            return Err(Refusal::Geometry);
        }
        Ok(Geometry {
            files: self.files,
            slots: self.slots,
            blocks: self.blocks,
            block_size: self.block_size,
        })
    }
}
