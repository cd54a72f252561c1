// Where the words of a problem stand: the number of rows, the words in use; the masks: rules, wanted rows, each kind, each role code; a word for each
// role code and each row.
use decoding::kinds::INCLUSION;
use words::sizes::SET_WORDS;

// How many words a problem takes.
pub const WORDS: usize = ROWS + 64 * SET_WORDS;

pub const COUNT: usize = 0;

pub const USED: usize = 1;

pub const RULES: usize = 4;

pub const WANTED: usize = RULES + SET_WORDS;

pub const KINDS: usize = WANTED + SET_WORDS;

pub const UNIVERSALS: usize = KINDS + 8 * SET_WORDS;

pub const NARROWS: usize = UNIVERSALS + 32 * SET_WORDS;

pub const ROWS: usize = NARROWS + 32;

// The mask of the inclusions among those of each kind.
pub const INCLUSIONS: usize = KINDS + SET_WORDS * INCLUSION as usize;

// How many role codes there are, "0 to 31".
pub const ROLES: usize = 32;
