// What the walk of the example keeps in the spare bytes of the records (01, The example), read and written mark by mark.
//
// In order: the sizes of an example, and one link; the number of a state; the state of an element; a link read and written; every number cleared.
#![tactic(auto)]

ghost use Rattle.std.specs.Prelude.{◌≡◌, ◌≤◌};
ghost use Rattle.words.specs.Sizes.{node_size, edge_size};
ghost use Rattle.records.specs.Areas.{room_of, Fits};
ghost use Rattle.marks.specs.Marks.{number_in, state_in, role_link_in, role_link_of};
ghost use Rattle.marks.specs.Marked.{NumberStored, StateStored, LinkStored, NumbersCleared};

use graph::Counts;
use records::layout::{MARK_FROM_AT, MARK_ROLE_AT, MARK_TO_AT, NUMBER_AT, PLACED_AT};
use words::sizes::{EDGE_BYTES, NODE_BYTES};
use words::{get2, put2};

// How many elements and links an example has.
#[derive(Clone, Copy, PartialEq, Eq, Debug)]
pub struct Sizes {
    pub elements: usize,
    pub links: usize,
}

// A link between two elements: "from, role code, to" (01, Areas).
#[derive(Clone, Copy, PartialEq, Eq, Debug)]
pub struct LinkMark {
    pub from: u16,
    pub role: u16,
    pub to: u16,
}

// 0, or one more than the number of the element that stands for state y: the number that the 2 bytes hold, which `number_in` is, and no Option.
// Not one function with `load_state`, nor the stores below: each is one call at a place of its own, and its promise names its mark.
#[tactic(auto, unfolding(crate::specs::Marks::number_in))]
pub fn load_number(nodes: &[u8], y: usize) -> u16
    requires { Fits node_size nodes.now y }
    ensures { result ≡ number_in nodes.now y }
{
    get2(nodes, NODE_BYTES * y + NUMBER_AT)
}

// Gives state y the number v.
pub fn store_number(nodes: &mut [u8], y: usize, v: u16)
    requires { Fits node_size nodes.old y }
    ensures { NumberStored nodes.old nodes.new y v }
{
    put2(nodes, NODE_BYTES * y + NUMBER_AT, v);
}

// The state for which element d stands.
#[tactic(auto, unfolding(crate::specs::Marks::state_in))]
pub fn load_state(nodes: &[u8], d: usize) -> u16
    requires { Fits node_size nodes.now d }
    ensures { result ≡ state_in nodes.now d }
{
    get2(nodes, NODE_BYTES * d + PLACED_AT)
}

// Lets element d stand for state y.
pub fn store_state(nodes: &mut [u8], d: usize, y: u16)
    requires { Fits node_size nodes.old d }
    ensures { StateStored nodes.old nodes.new d y }
{
    put2(nodes, NODE_BYTES * d + PLACED_AT, y);
}

// Link k.
#[tactic(auto, unfolding(crate::specs::Marks::role_link_in))]
pub fn load_role_link(edges: &[u8], k: usize) -> LinkMark
    requires { Fits edge_size edges.now k }
    ensures { role_link_of result ≡ role_link_in edges.now k }
{
    let at = EDGE_BYTES * k;
    LinkMark {
        from: get2(edges, at + MARK_FROM_AT),
        role: get2(edges, at + MARK_ROLE_AT),
        to: get2(edges, at + MARK_TO_AT),
    }
}

// Writes l as link k.
pub fn store_role_link(edges: &mut [u8], k: usize, l: LinkMark)
    requires { Fits edge_size edges.old k }
    ensures { LinkStored edges.old edges.new k (role_link_of l) }
{
    let at = EDGE_BYTES * k;
    put2(edges, at + MARK_FROM_AT, l.from);
    put2(edges, at + MARK_ROLE_AT, l.role);
    put2(edges, at + MARK_TO_AT, l.to);
}

// No state has a number.
pub fn clear_numbers(nodes: &mut [u8], c: Counts)
    requires { c.nodes ≤ room_of node_size nodes.old }
    ensures { NumbersCleared nodes.old nodes.new c.nodes }
{
    for y in 0..c.nodes as usize {
        store_number(nodes, y, 0);
    }
}
