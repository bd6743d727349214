//! What the statements of a document's type make.
use reg_base::{Item, List, Sets};

/// What posting a document makes: its records and entries, the items that it read, in order, and
/// the registers and resources that it controls.
#[derive(Drop)]
pub struct Yield {
    pub sets: Sets,
    pub reads: List<Item>,
    /// The places of a register and of its resource, in the order of the text.
    pub controls: List<(u8, u8)>,
}

/// What the statements have made so far.
#[derive(Drop)]
pub struct Made {
    pub sets: Sets,
    pub reads: List<Item>,
    pub controls: List<(u8, u8)>,
    /// What the latest write-off of the round cost, and 0 before the first.
    pub cost: i128,
}
