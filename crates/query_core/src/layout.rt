// The layout of a held query, docs/LAYOUT.md: its size, where its nodes and its heap begin, and their sizes.
pub const MOST_NODES: usize = 256;

pub const NODES: usize = 2;

pub const NODE_BYTES: usize = 20;

pub const HEAP: usize = NODES + NODE_BYTES * MOST_NODES;

pub const HEAP_BYTES: usize = 96 * MOST_NODES + 96;

pub const QUERY_BYTES: usize = HEAP + HEAP_BYTES;

// The tags of nodes. Bytes, since a held form is compared byte by byte: an enum of tags would be turned into them and back, and no
// reader of it would be shorter.
pub const AND: u8 = 0;

pub const OR: u8 = 1;

pub const CATEGORY: u8 = 2;

pub const NAMESPACE: u8 = 3;

pub const EXISTENCE: u8 = 4;

pub const SUBQUERY: u8 = 5;

pub const ARTICLE: u8 = 6;

pub const VALUE: u8 = 7;

pub const LINK: u8 = 8;

// The codes of comparators.
pub const EQUAL: u8 = 0;

pub const UNEQUAL: u8 = 1;

pub const GREATER: u8 = 2;

pub const LESS: u8 = 3;
