// Chains of records that belong to one node, in order of arrival, kept in bytes that a record of the graph leaves free.
//
// In order: where a chain keeps its numbers; a node with no records; a record more; from one record to the next.
// So a record is added at once, and going through those of a node costs what there is.
#![tactic(auto)]

ghost use Rattle.std.specs.Prelude.{◌≡◌, ◌≤◌};
ghost use Rattle.words.specs.Sizes.{node_size};
ghost use Rattle.records.specs.Areas.{room_of, Fits};
ghost use Rattle.chains.specs.Chain.{following};
ghost use Rattle.chains.specs.Places as P;

use words::sizes::NODE_BYTES;
use words::{get2, put2};

// Where a chain keeps its numbers of 2 bytes: in a record of `size` bytes the node that it belongs to (`key`) and the next record of that node,
// in the node's record the first and, behind it, the last.
#[derive(Clone, Copy, PartialEq, Eq, Debug)]
pub struct Places {
    pub size: usize,
    pub key: usize,
    pub next: usize,
    pub first: usize,
}

// Says that there is no record: none has this number. A number and no Option, here and in what `follow` answers, since these 2 bytes hold it, and
// `following` is the number that they hold: whether it is a record's is asked once, of how many there are, by whoever follows.
const NONE: u16 = 4096;

// Node x has no records.
pub fn begin(nodes: &mut [u8], p: Places, x: usize)
    requires { P.Sits p × Fits node_size nodes.old x }
    ensures { P.Begun p nodes.old nodes.new x }
{
    put2(nodes, NODE_BYTES * x + p.first, NONE);
    put2(nodes, NODE_BYTES * x + (p.first + 2), NONE);
}

// Puts record i at the end of the chain of node x.
pub fn append(nodes: &mut [u8], area: &mut [u8], p: Places, x: usize, i: usize)
    requires { P.Has p nodes.old area.old x i }
    ensures { P.Appended p nodes.old nodes.new area.old area.new i x }
{
    let last = get2(nodes, NODE_BYTES * x + (p.first + 2)) as usize;
    put2(nodes, NODE_BYTES * x + (p.first + 2), i as u16);
    put2(area, p.size * i + p.next, NONE);
    if last < i {
        put2(area, p.size * last + p.next, i as u16);
        return;
    }
    put2(nodes, NODE_BYTES * x + p.first, i as u16);
}

// The record of node x from place `from` on: its first, or the next of the record before the place.
pub fn follow(nodes: &[u8], area: &[u8], p: Places, x: usize, from: usize) -> usize
    requires { P.Sits p × Fits node_size nodes.now x × (from ≤ room_of p.size area.now) }
    ensures { result ≡ following (P.next_in p area.now) (P.first_in p nodes.now) x from }
{
    if from == 0 {
        return get2(nodes, NODE_BYTES * x + p.first) as usize;
    }
    get2(area, p.size * (from - 1) + p.next) as usize
}
