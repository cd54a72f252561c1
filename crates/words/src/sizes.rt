// How large sets, links and records are, and how many records count (01, Areas; 02, [10]): the code's side of specs/Sizes.
// How many words a set of rows has, and how many bytes.
pub const SET_WORDS: usize = 1;

pub const SET_BYTES: usize = 8 * SET_WORDS;

// The bytes of a link of an example. An element is a set.
pub const LINK_BYTES: usize = 6;

// "nodes (64 bytes each), graph edges (16) and alternatives (16)"
pub const NODE_BYTES: usize = 64;

pub const EDGE_BYTES: usize = 16;

pub const ALTERNATIVE_BYTES: usize = 16;

// "whole records count, and at most 4,096 of each"
pub const MOST_RECORDS: usize = 4096;
