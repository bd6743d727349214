//! Why posting a document makes nothing.
use reg_base::{Fault, PostFault};

/// Why posting a document by its rules makes nothing: its records and entries are refused, or
/// memory is wanted.
pub type YieldFault = Fault<PostFault>;

/// What a part of posting makes, or why it makes nothing.
pub(crate) type Tried<X> = Result<X, YieldFault>;
