// Where each number stands in its record, in bytes from the record's start: the places of specs/Layout, which says what is there.
use words::sizes::SET_BYTES;

// A node, behind its set: the node's own, its marks, its chains.
pub const STATUS_AT: usize = SET_BYTES;

pub const IS_STATE_AT: usize = SET_BYTES + 1;

pub const PST_AT: usize = SET_BYTES + 2;

pub const PRL_AT: usize = SET_BYTES + 4;

pub const LINK_KIND_AT: usize = SET_BYTES + 5;

pub const LINK_NUMBER_AT: usize = SET_BYTES + 6;

pub const NUMBER_AT: usize = SET_BYTES + 8;

pub const PLACED_AT: usize = SET_BYTES + 10;

pub const CHILDREN_AT: usize = SET_BYTES + 12;

pub const PARENTS_AT: usize = SET_BYTES + 16;

pub const ALTERNATIVES_AT: usize = SET_BYTES + 20;

// An edge: its own, its marks, its chains.
pub const FROM_AT: usize = 0;

pub const TO_AT: usize = 2;

pub const MARK_FROM_AT: usize = 4;

pub const MARK_ROLE_AT: usize = 6;

pub const MARK_TO_AT: usize = 8;

pub const NEXT_CHILD_AT: usize = 10;

pub const NEXT_PARENT_AT: usize = 12;

// An alternative, behind its set: its own, its chain.
pub const OWNER_AT: usize = SET_BYTES;

pub const NEXT_ALTERNATIVE_AT: usize = SET_BYTES + 2;
