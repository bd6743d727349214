//! What a part of the desk makes of a request, unless it is refused or memory is wanted.
use desk_words::Refusal;
use reg_base::Fault;

/// Why a part of the desk makes nothing: the request is refused, or memory is wanted.
pub type PartFault = Fault<Refusal>;

/// What a part of the desk makes, or why it makes nothing.
pub type Tried<X> = Result<X, PartFault>;
