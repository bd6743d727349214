//! The last request of a clerk.
use desk_words::{Acknowledgement, Request};
use reg_base::Name;

/// The last numbered request that was accepted of a clerk: what a repeat is told by.
#[derive(Drop)]
pub struct Last {
    pub clerk: Name,
    /// The request's number among those of its clerk.
    pub number: u32,
    /// The request itself: a repeat has the same canonical text.
    pub request: Request,
    /// What the request was acknowledged with.
    pub acknowledgement: Acknowledgement,
}
