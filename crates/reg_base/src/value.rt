//! Values of dimensions and of document fields.
use crate::code::Code;
use crate::point::Point;

/// A value of a dimension: a code, or a lot named by the point of the record that made it.
/// Codes are ordered by bytes, lots as points, and every code stands before every lot.
#[derive(Clone, Copy, Debug, PartialEq, Eq, PartialOrd, Ord)]
pub enum Value {
    Code(Code),
    Lot(Point),
}

/// A value of a document's field: a code, or a number in units at the field's scale.
#[derive(Clone, Copy, Debug, PartialEq, Eq)]
pub enum Cell {
    Code(Code),
    Num(i64),
}
