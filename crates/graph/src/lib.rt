// The graph of the procedure in three lent areas, of nodes, of edges and of alternatives (01, The procedure; Areas).
//
// In order: the values; the chains; the records that belong to a node, one after another; adding a record; changing a node; searches.
// How a record stands in bytes is in crate records, and what a chain is in crate chains. Records name each other by index: the areas are lent by
// callers in C, and nothing is allocated.
#![tactic(auto)]

ghost use Rattle.std.specs.Prelude.{◌≡◌, ◌≤◌, ◌<◌};
ghost use Rattle.concepts.specs.Lists.{NoneBelow};
ghost use Rattle.procedure.specs.Graph.{add_node, add_edge, add_alternative, set_status, set_link, find_state, lowest_unset};
ghost use Rattle.words.specs.Sizes.{node_size, edge_size, alternative_size, records_lent};
ghost use Rattle.rowset.specs.SetOf.{set_of};
ghost use Rattle.records.specs.Areas.{room_of, Fits};
ghost use Rattle.records.specs.Codes as Codes;
ghost use Rattle.records.specs.Records as Records;
ghost use Rattle.chains.specs.Chain.{following};
ghost use Rattle.chains.specs.Places.{Sits, next_in, first_in};
ghost use Rattle.graph.specs.Graphs as Graphs;

use chains::{Places, append, begin, follow};
use records::layout::{
    ALTERNATIVES_AT, CHILDREN_AT, FROM_AT, NEXT_ALTERNATIVE_AT, NEXT_CHILD_AT, NEXT_PARENT_AT,
    OWNER_AT, PARENTS_AT, TO_AT,
};
use records::{
    Edge, Link, Node, Status, alternative_set, is_state, is_unset, load_edge, node_set, room,
    store_alternative, store_edge, store_link, store_node, store_status,
};
use rowset::same;
use words::sizes::{ALTERNATIVE_BYTES, EDGE_BYTES, NODE_BYTES, SET_BYTES, SET_WORDS};

// How many records each area has in use, at most 4,096 of each. In 2 bytes each, since nearly every function takes counts and answers with counts.
#[derive(Clone, Copy)]
pub struct Counts {
    pub nodes: u16,
    pub edges: u16,
    pub alternatives: u16,
}

// The counts of areas with no records.
pub const NO_RECORDS: Counts = Counts {
    nodes: 0,
    edges: 0,
    alternatives: 0,
};

// An area that was short: what a step answers that found no place. One that did answers the new counts.
#[derive(Clone, Copy, PartialEq, Eq, Debug)]
pub enum Area {
    Nodes,
    Edges,
    Alternatives,
}

// Where the chains keep their numbers: of the edges from a node, of the edges to it, of a state's alternatives.
const CHILDREN: Places = Places {
    size: EDGE_BYTES,
    key: FROM_AT,
    next: NEXT_CHILD_AT,
    first: CHILDREN_AT,
};

const PARENTS: Places = Places {
    size: EDGE_BYTES,
    key: TO_AT,
    next: NEXT_PARENT_AT,
    first: PARENTS_AT,
};

const ALTERNATIVES: Places = Places {
    size: ALTERNATIVE_BYTES,
    key: OWNER_AT,
    next: NEXT_ALTERNATIVE_AT,
    first: ALTERNATIVES_AT,
};

// The first record from place `from` on, of the first `count`, that is in the chain of x.
fn next(nodes: &[u8], area: &[u8], chain: Places, count: u16, x: u16, from: usize) -> Option<usize>
    requires { Sits chain × Fits node_size nodes.now x × (from ≤ room_of chain.size area.now) }
    ensures { Graphs.IsRecord result count (following (next_in chain area.now) (first_in chain nodes.now) x from) }
{
    let index = follow(nodes, area, chain, x as usize, from);
    if index < count as usize {
        Some(index)
    } else {
        None
    }
}

// The first edge from place `from` on that starts at x, by its index, with its end. This and the next two share `next`; what is left of each is
// its chain, which its contract speaks of. No iterator: between two steps the tableau writes in the areas, which an iterator would keep borrowed.
pub fn next_child(
    nodes: &[u8],
    edges: &[u8],
    c: Counts,
    x: u16,
    from: usize,
) -> Option<(usize, u16)>
    requires { Graphs.Walks edge_size nodes.now edges.now c.nodes c.edges x from }
    ensures { Graphs.WithEdges nodes.now edges.now c
        (λ g. Graphs.AmongChildren g x from → Graphs.IsNext result from c.edges (Graphs.children_from g x) (Graphs.AmongChildren g x)) }
{
    let index = next(nodes, edges, CHILDREN, c.edges, x, from)?;
    Some((index, load_edge(edges, index).to))
}

// The first edge from place `from` on that ends at x, by its index, with its start.
pub fn next_parent(
    nodes: &[u8],
    edges: &[u8],
    c: Counts,
    x: u16,
    from: usize,
) -> Option<(usize, u16)>
    requires { Graphs.Walks edge_size nodes.now edges.now c.nodes c.edges x from }
    ensures { Graphs.WithEdges nodes.now edges.now c
        (λ g. Graphs.AmongParents g x from → Graphs.IsNext result from c.edges (Graphs.parents_from g x) (Graphs.AmongParents g x)) }
{
    let index = next(nodes, edges, PARENTS, c.edges, x, from)?;
    Some((index, load_edge(edges, index).from))
}

// The first alternative from place `from` on that is state x's, by its index.
pub fn next_alternative(
    nodes: &[u8],
    alternatives: &[u8],
    c: Counts,
    x: u16,
    from: usize,
) -> Option<usize>
    requires { Graphs.Walks alternative_size nodes.now alternatives.now c.nodes c.alternatives x from }
    ensures { Graphs.WithAlternatives nodes.now alternatives.now c
        (λ g. Graphs.AmongAlternatives g x from
        → Graphs.IsNextAlternative alternatives.now result from c.alternatives (Graphs.alternatives_from g x) (Graphs.AmongAlternatives g x)) }
{
    next(nodes, alternatives, ALTERNATIVES, c.alternatives, x, from)
}

// The place of a record more of a size, behind `count` of them in an area of a length; or the area, which has none.
fn place(len: usize, size: usize, count: u16, area: Area) -> Result<usize, Area>
    requires { 0 < size }
    ensures { Graphs.IsPlace result (records_lent size len) count area }
{
    let x = count as usize;
    if x < room(len, size) {
        Ok(x)
    } else {
        Err(area)
    }
}

// Adds a node with the set s at the end. It has no children, no parents and no alternatives.
// Adding a node, an edge and an alternative share `place`; what is left of each is what it writes, and into which chains.
pub fn add_node(nodes: &mut [u8], c: Counts, s: &[u8; SET_BYTES], n: Node) -> Result<Counts, Area>
    ensures { Graphs.AddsNode nodes.old nodes.new c result (λ k g. add_node k (Records.node_of (set_of s.now 0) n) g) }
{
    let x = place(nodes.len(), NODE_BYTES, c.nodes, Area::Nodes)?;
    store_node(nodes, x, s, n);
    begin(nodes, CHILDREN, x);
    begin(nodes, PARENTS, x);
    begin(nodes, ALTERNATIVES, x);
    Ok(Counts {
        nodes: c.nodes + 1,
        ..c
    })
}

// Adds an edge at the end.
pub fn add_edge(
    nodes: &mut [u8],
    edges: &mut [u8],
    c: Counts,
    from: u16,
    to: u16,
) -> Result<Counts, Area>
    requires { (from < c.nodes) × (to < c.nodes) × (c.nodes ≤ room_of node_size nodes.old) }
    ensures { Graphs.AddsEdge nodes.old nodes.new edges.old edges.new c result
        (λ k g. add_edge k from to g) }
{
    let i = place(edges.len(), EDGE_BYTES, c.edges, Area::Edges)?;
    store_edge(edges, i, Edge { from, to });
    append(nodes, edges, CHILDREN, from as usize, i);
    append(nodes, edges, PARENTS, to as usize, i);
    Ok(Counts {
        edges: c.edges + 1,
        ..c
    })
}

// Whether the state has the set s among its alternatives already.
fn has_alternative(
    nodes: &[u8],
    alternatives: &[u8],
    c: Counts,
    owner: u16,
    s: &[u8; SET_BYTES],
) -> bool
    requires { Graphs.Owns nodes.now alternatives.now c owner }
    ensures { Graphs.TellsAlternative nodes.now alternatives.now c owner (set_of s.now 0) result }
{
    let mut from = 0;
    while let Some(i) = next_alternative(nodes, alternatives, c, owner, from) {
        if same(alternatives, alternative_set(i), s, 0, SET_WORDS) {
            return true;
        }
        from = i + 1;
    }
    false
}

// Adds the set s as an alternative at the end, unless the state has it already.
pub fn add_alternative(
    nodes: &mut [u8],
    alternatives: &mut [u8],
    c: Counts,
    owner: u16,
    s: &[u8; SET_BYTES],
) -> Result<Counts, Area>
    requires { Graphs.Owns nodes.old alternatives.old c owner }
    ensures { Graphs.AddsAlternative nodes.old nodes.new alternatives.old alternatives.new c result
        (λ k g. add_alternative k owner (set_of s.now 0) g) }
{
    if has_alternative(nodes, alternatives, c, owner, s) {
        return Ok(c);
    }
    let i = place(
        alternatives.len(),
        ALTERNATIVE_BYTES,
        c.alternatives,
        Area::Alternatives,
    )?;
    store_alternative(alternatives, i, s, owner);
    append(nodes, alternatives, ALTERNATIVES, owner as usize, i);
    Ok(Counts {
        alternatives: c.alternatives + 1,
        ..c
    })
}

// Gives node x a status. Not one function with `set_link`: each is one call of records, and a parameter would choose between the two.
pub fn set_status(nodes: &mut [u8], c: Counts, x: usize, status: Status)
    requires { (x < c.nodes) × (c.nodes ≤ room_of node_size nodes.old) }
    ensures { Graphs.ChangesNodes nodes.old nodes.new c (set_status x (Codes.status_of status)) }
{
    store_status(nodes, x, status);
}

// Gives node x a link.
pub fn set_link(nodes: &mut [u8], c: Counts, x: usize, link: Link)
    requires { (x < c.nodes) × (c.nodes ≤ room_of node_size nodes.old) }
    ensures { Graphs.ChangesNodes nodes.old nodes.new c (set_link x (Codes.link_of link)) }
{
    store_link(nodes, x, link);
}

// Whether node x is a state with the set s, and not the root.
fn is_state_with(nodes: &[u8], x: u16, s: &[u8; SET_BYTES]) -> bool
    requires { Fits node_size nodes.now x }
    ensures { result ≡ Graphs.is_state_with nodes.now (set_of s.now 0) x }
{
    // most nodes differ in the set
    if same(nodes, node_set(x), s, 0, SET_WORDS) {
        return (0 < x) & is_state(nodes, x as usize);
    }
    false
}

// The state with the set s; the root "is never looked up".
pub fn find_state(nodes: &[u8], c: Counts, s: &[u8; SET_BYTES]) -> Option<u16>
    requires { c.nodes ≤ room_of node_size nodes.now }
    ensures { Graphs.WithNodes nodes.now c (λ g. result ≡ find_state (set_of s.now 0) g) }
{
    for x in 0..c.nodes {
        if is_state_with(nodes, x, s) {
            return Some(x);
        }
    }
    None
}

// The lowest node that has no status, where none below `from` lacks one; nor does any below the one that is found.
pub fn lowest_unset(nodes: &[u8], c: Counts, from: usize) -> Option<u16>
    requires { (c.nodes ≤ room_of node_size nodes.now) × (from ≤ c.nodes) × NoneBelow (Records.is_unset_at nodes.now) from }
    ensures { Graphs.WithNodes nodes.now c (λ g. result ≡ lowest_unset g)
        × Graphs.PassedOver result (Records.is_unset_at nodes.now) }
{
    for x in from..c.nodes as usize {
        if is_unset(nodes, x) {
            return Some(x as u16);
        }
    }
    None
}
