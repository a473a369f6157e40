// The held tree of a query text: a surface query as postfix nodes.
#![tactic(auto)]

use language::SurfaceComparator;
use text::Span;

pub mod layout; // layout.rt: the regions and tags of a held tree
pub mod reading; // reading.rt: nodes from their bytes

pub use layout::TREE_BYTES;

// A part of a query: a bracket of categories or of identifiers, the alternatives of a property, a property's bracket, two joined.
#[derive(Clone, Copy, Debug, PartialEq, Eq)]
pub enum Shape {
    Categories,
    Identifiers,
    Alternatives,
    Property,
    Disjunction,
    Conjunction,
}

// What the test keeps of a part: its shape and its first node; how many names its chain has; whether it is one alternative, whether its
// first one would be read as a category, whether every rule is kept, that aside; bytes and depth of its shortest spelling, the
// brackets of categories and identifiers aside. Numbers stop at the first that is too large.
#[derive(Clone, Copy)]
pub struct Item {
    pub shape: Shape,
    pub from: usize,
    pub names: u16,
    pub one: bool,
    pub leads: bool,
    pub kept: bool,
    pub bytes: u16,
    pub depth: u16,
}

// A node's six bytes: a tag, a comparator, a number, the lengths of a namespace and of a name or value. The tag is a byte and no enum, since
// any bytes are read as rows, and the test tells by this byte whether they are a tree's.
#[derive(Clone, Copy)]
pub struct Row {
    pub tag: u8,
    pub comparator: u8,
    pub number: u16,
    pub first: u8,
    pub second: u8,
}

// A node; its strings are places in the bytes of all strings.
#[derive(Clone, Copy)]
pub enum TreeNode {
    And(usize),
    Or(usize),
    Bar(usize),
    Category(Span),
    Namespace(Span),
    Bare(SurfaceComparator, Span),
    Qualified(SurfaceComparator, Span, Span),
    Existence,
    Value(SurfaceComparator, Span),
    Subquery,
    Property(Span),
    Link(Span),
}
