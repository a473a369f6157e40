// The comparators that reader, fitting and evaluation share.
#![tactic(auto)]

pub mod comparators; // comparators.rt: what differs from comparator to comparator
pub mod refusals; // refusals.rt: what a call refuses

pub use comparators::{
    LAST_COMPARATOR, comparator_at, comparator_from, in_any_namespace, is_equal, or_equal, strict,
    word_length,
};
pub use refusals::Refusal;

// Comparators of core queries (thesis 4.2.1).
#[derive(Clone, Copy, Debug, PartialEq, Eq)]
pub enum Comparator {
    Equal,
    Unequal,
    Greater,
    Less,
}

// Comparators as written (thesis 5.2.2).
#[derive(Clone, Copy, Debug, PartialEq, Eq)]
pub enum SurfaceComparator {
    Equal,
    Unequal,
    Greater,
    Less,
    AtLeast,
    AtMost,
}
