// The layout of a held tree, docs/LAYOUT.md: its size, where its nodes and its strings begin, and their sizes.
pub const MOST_NODES: usize = 681;

pub const NODES: usize = 2;

pub const NODE_BYTES: usize = 6;

pub const ALL_NODE_BYTES: usize = NODE_BYTES * MOST_NODES;

pub const STRINGS: usize = NODES + ALL_NODE_BYTES;

pub const STRING_BYTES: usize = 1024;

pub const TREE_BYTES: usize = STRINGS + STRING_BYTES;

// The tags of nodes.
pub const AND: u8 = 0;

pub const OR: u8 = 1;

pub const BAR: u8 = 2;

pub const CATEGORY: u8 = 3;

pub const NAMESPACE: u8 = 4;

pub const BARE: u8 = 5;

pub const QUALIFIED: u8 = 6;

pub const EXISTENCE: u8 = 7;

pub const VALUE: u8 = 8;

pub const SUBQUERY: u8 = 9;

pub const PROPERTY: u8 = 10;

pub const LINK: u8 = 11;
