//! Parts of what is left of a register, and what is taken from them.
use reg_base::Value;

/// A part of what is left, or of what is taken from it: its lot, where lots are told apart, its
/// quantity and its amount, in units.
#[derive(Clone, Copy)]
pub struct Holding {
    pub lot: Option<Value>,
    pub quantity: i128,
    pub amount: i128,
}
