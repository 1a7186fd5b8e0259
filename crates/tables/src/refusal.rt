// Why one of the store's own calls does nothing.
ghost use Rattle.std.specs.Prelude.{◌≡◌};
ghost use Rattle.tables.specs.Refusal.{number_of};

/// The geometry lies outside its limits, a length is another, the store is not sound, there is no such slot.
#[derive(Clone, Copy, Debug, PartialEq, Eq)]
pub enum Refusal {
    Geometry = 1,
    Length = 2,
    Unsound = 3,
    NoSlot = 8,
}

impl Refusal {
    pub fn number(self) -> u32
        ensures { result ≡ number_of self }
    {
        self as u32
    }
}
