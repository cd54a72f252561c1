// The answer of the engine as numbers: what its call gives back beside the areas, also through the C convention (01, Refusals; Areas; 02, [4]).
//
// In order: the numbers of an answer; those of a verdict; those of the refusals of an accepted file (1 to 8 and 16 are the reader's).
#![tactic(auto)]

// With a verdict the refusal is 0. With a refusal the verdict and the numbers after it are 0, but 11 gives the example's two counts, and 13, 14 and 15 how many records were lent.
#[repr(C)]
#[derive(Clone, Copy, PartialEq, Eq, Debug, Default)]
pub struct Answer {
    // 1 for "can", 2 for "cannot", 0 with a refusal.
    pub verdict: u32,
    // 1 to 8 or 16 of the file, 11, or 13, 14 and 15 for nodes, edges and alternatives; 0 with a verdict.
    pub refusal: u32,
    // Records used.
    pub nodes: u32,
    pub edges: u32,
    pub alternatives: u32,
    // The example's elements and links.
    pub elements: u32,
    pub links: u32,
    // Records that count as lent, of the kind that found no place.
    pub lent: u32,
}

// The numbers of a verdict. Numbers and no enum, these and the refusals below: `Answer` is what C reads, and whoever prints one compares numbers. In the
// library a refusal of an accepted file is a `Shortage` of crate conclusion, and of a file that of crate checks.
pub const CAN: u32 = 1;

pub const CANNOT: u32 = 2;

// The refusals of a file that is accepted: the example is too long for an area; "13 is for nodes, 14 for edges, 15 for alternatives" (02, [4]).
pub const TOO_LONG: u32 = 11;

pub const NO_NODE: u32 = 13;

pub const NO_EDGE: u32 = 14;

pub const NO_ALTERNATIVE: u32 = 15;
