// Core queries as postfix nodes, and the held query that carries them.
#![tactic(auto)]

pub mod layout; // layout.rt: the regions and tags of a held query
pub mod query; // query.rt: number 21's test
mod links; // links.rt: a link from the bytes of its slot
pub mod reading; // reading.rt: a node from its bytes
mod fields; // fields.rt: the fields of a slot, and a selector's node
mod placing; // placing.rt: where the strings of nodes lie, and their slots
pub mod writing; // writing.rt: nodes into a held query

use language::{Comparator, SurfaceComparator};
pub use layout::QUERY_BYTES;
pub use query::is_query;
pub use reading::{expects_kind_at, node_at};
use text::Span;
use values::{Scalar, Split};
pub use writing::{count_of, finish, put_connective, put_node};

// A constant: the kind and the code of a scalar, or where a string lies in a text.
#[derive(Clone, Copy)]
pub enum Constant {
    Scalar(Scalar, u64),
    String(Span),
}

// A core selector without what stands below it; names are places in a text.
#[derive(Clone, Copy)]
pub enum Selector {
    Category(Span),
    Namespace(Span),
    Existence(Span),
    Subquery(Span),
    Article(Comparator, Span),
    Value(Span, Comparator, Constant),
    Link(Span, SurfaceComparator, Split),
}

// What a node does with the queries before it.
#[derive(Clone, Copy)]
pub enum Connective {
    And,
    Or,
    Select,
}

// A node of a core query; the selector counts where the connective is Select.
#[derive(Clone, Copy)]
pub struct Node {
    pub connective: Connective,
    pub selector: Selector,
}

// Where the strings of a node lie, at most three.
#[derive(Clone, Copy)]
pub struct Strings {
    pub first: Span,
    pub second: Span,
    pub third: Span,
}

// The place behind nodes that are laid into a held query: how many there are, 257 for more than 256, and 512 times how many bytes of
// the heap their strings take. One number, since it goes through every call of a recursion.
#[derive(Clone, Copy)]
pub struct Place {
    pub code: usize,
}

// The numbers in a node's 20 bytes.
#[derive(Clone, Copy)]
pub struct Slot {
    pub tag: u8,
    pub comparator: u8,
    pub kind: u8,
    pub first: Span,
    pub second: Span,
    pub number: u64,
}
