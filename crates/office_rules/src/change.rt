//! The decision on an act: the row writes and the answer, or the answer alone.
use crate::{Answer, RowWrite};

/// What an accepted act does: at most six row writes, in the order in which they are to be done,
/// and the answer. The first may need memory, the others need none.
#[derive(Drop)]
pub struct Change {
    pub answer: Answer,
    pub writes: Vec<RowWrite>,
}

/// What is decided of an act.
#[derive(Drop)]
pub enum Decision {
    /// A refusal, or a record that was there before: nothing is to be done.
    Stay(Answer),
    /// The change that is to be made.
    Go(Change),
}
