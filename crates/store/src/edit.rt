// An edit as a value, with the bytes that a WRITE brings.

/// Where the bytes of a COPY or a CLONE come from: the places of a file from `off` on.
#[derive(Clone, Copy, Debug, PartialEq, Eq)]
pub struct Source {
    pub file: usize,
    pub off: usize,
}

/// What an edit does at the places of its region.
#[derive(Clone, Copy, Debug)]
pub enum Act<'a> {
    Write(&'a [u8]),
    Copy(Source),
    Clone(Source),
    Allocate,
    Deallocate,
}

/// The file, the region, from `off` up to `end`, and what is done there.
#[derive(Clone, Copy, Debug)]
pub struct Edit<'a> {
    pub file: usize,
    pub off: usize,
    pub end: usize,
    pub act: Act<'a>,
}

/// A slot of the region: its index in the file, its word before the edit and the planned one.
#[derive(Clone, Copy, Debug, PartialEq, Eq)]
pub struct Slot {
    pub index: usize,
    pub old: u32,
    pub new: u32,
}

/// What becomes of a slot of the region.
#[derive(Clone, Copy, Debug, PartialEq, Eq)]
pub enum Kind {
    // It gets an unshared block.
    Owns,
    // It is given back.
    Given,
    // It becomes a hole and keeps its r.
    Cleared,
    // It takes the block, or the hole, of the slot with that index.
    Shares(usize),
    // Its r is set.
    Reserved,
    Stays,
}

/// Which slots a pass changes.
#[derive(Clone, Copy, Debug, PartialEq, Eq)]
pub enum Pass {
    // Those that become holes.
    Holes,
    // The others.
    Others,
}

/// The store would need more blocks than there are.
#[derive(Clone, Copy, Debug, PartialEq, Eq)]
pub struct NoSpace;
