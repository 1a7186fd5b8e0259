// What is counted.

/// Of slot words: how many hold a block, and whether one is reserved.
#[derive(Clone, Copy)]
pub struct Counted {
    pub held: usize,
    pub reserved: bool,
}

/// Of a sound store: its used and owed blocks.
#[derive(Clone, Copy, Debug)]
pub struct Survey {
    pub used: usize,
    pub owed: usize,
}
