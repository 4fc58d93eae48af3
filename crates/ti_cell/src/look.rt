//! What a look at a cell's word shows.
/// What a load of a cell's word shows.
#[derive(Clone, Copy, PartialEq, Eq, Debug)]
pub struct Look {
    /// Whether the thread has to hand over at its next poll: a waiting call is unanswered, or a stop is in force.
    pub armed: bool,
    /// Whether the thread may not start or return: it is suspended, or a stop is in force.
    pub barred: bool,
    /// How many entries the thread's history has.
    pub count: u64,
}
