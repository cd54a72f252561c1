// The walk of the example over lent areas (01, The example): "From the root go .. down to a linked special node and its state: element 0.
// For each element in order, and for each kind 6 row of its state, rising", down from the child put for that row.
//
// In order: the status of a node; the child that the walk goes to; down to a state; meeting a state; the rows of an element; the walk.
// Elements and links are kept as marks in the spare bytes of the records.
#![tactic(auto)]

ghost use Rattle.std.specs.Prelude.{◌≡◌, ◌≤◌};
ghost use Rattle.procedure.specs.Example as Example;
ghost use Rattle.words.specs.Sizes.{node_size};
ghost use Rattle.records.specs.Areas.{room_of};
ghost use Rattle.records.specs.Codes.{status_of};
ghost use Rattle.graph.specs.Graphs.{graph_of};
ghost use Rattle.walk.specs.Clauses;
ghost use Rattle.walk.specs.Clauses.{nodes_edges};

use graph::{Counts, next_child};
use marks::{
    LinkMark, Sizes, clear_numbers, load_number, load_state, store_number, store_role_link,
    store_state,
};
use records::{Link, Status, link_of, node_set, status_of};
use settests::next_exist;

// Whether a status is the one looked for.
fn is_asked(s: Status, wanted: Status) -> bool
    ensures { result ≡ Clauses.asked (status_of wanted) (status_of s) }
{
    s == wanted
}

// The status of node y; none if there is no such node.
fn status_at(nodes: &[u8], c: Counts, y: u16) -> Status
    requires { c.nodes ≤ room_of node_size nodes.now }
    ensures { Clauses.StatusAt nodes.now c y (status_of result) }
{
    if y < c.nodes {
        status_of(nodes, y as usize)
    } else {
        Status::Unset
    }
}

// The first child of x that has the status looked for.
fn first_child(nodes: &[u8], edges: &[u8], c: Counts, x: u16, wanted: Status) -> Option<u16>
    requires { Clauses.ChildAsks (nodes_edges nodes.now edges.now) c x }
    ensures { result ≡ Example.first_child (Clauses.asked (status_of wanted)) (graph_of (nodes_edges nodes.now edges.now) c) x }
{
    let mut from = 0;
    while let Some((index, child)) = next_child(nodes, edges, c, x, from) {
        if is_asked(status_at(nodes, c, child), wanted) {
            return Some(child);
        }
        from = index + 1;
    }
    None
}

// "The first child that is yes, else the first open".
fn live_child(nodes: &[u8], edges: &[u8], c: Counts, x: u16) -> Option<u16>
    requires { Clauses.ChildAsks (nodes_edges nodes.now edges.now) c x }
    ensures { result ≡ Example.live_child (graph_of (nodes_edges nodes.now edges.now) c) x }
{
    let first = |wanted| first_child(nodes, edges, c, x, wanted);
    first(Status::Sat).or_else(|| first(Status::Open))
}

// The state to which the way down from node `from` leads. The nodes on the way rise, and each that is no end has a child to go to.
fn descend(nodes: &[u8], edges: &[u8], c: Counts, from: u16) -> u16
    requires { Clauses.DescendAsks (nodes_edges nodes.now edges.now) c from }
    ensures { Clauses.DescendGives (nodes_edges nodes.now edges.now) c from result }
{
    let mut x = from;
    loop {
        if let Link::State(y) = link_of(nodes, x as usize) {
            return y;
        }
        x = live_child(nodes, edges, c, x).unwrap();
    }
}

// Meets state y from element d along the role: "a state met first gets the next number, and one link is written".
fn meet(nodes: &mut [u8], edges: &mut [u8], c: Counts, s: Sizes, d: u16, role: u8, y: u16) -> Sizes
    requires { Clauses.MeetAsks (nodes_edges nodes.old edges.old) c s d role y }
    ensures { Clauses.MeetGives (nodes_edges nodes.old edges.old) c s d role y result
        (nodes_edges nodes.new edges.new) }
{
    let Sizes { elements, links } = s;
    let role = role as u16;
    let number = load_number(nodes, y as usize);
    let met = 0 < number;
    if met {
        let to = number - 1;
        store_role_link(edges, links, LinkMark { from: d, role, to });
        return Sizes {
            elements,
            links: links + 1,
        };
    }
    store_number(nodes, y as usize, (elements + 1) as u16);
    store_state(nodes, elements, y);
    let to = elements as u16;
    store_role_link(edges, links, LinkMark { from: d, role, to });
    Sizes {
        elements: elements + 1,
        links: links + 1,
    }
}

// Walks the rows of element d with the children put for them. The set of its state is read where it stands: only marks are written meanwhile.
fn walk_rows(
    problem: &[u64],
    nodes: &mut [u8],
    edges: &mut [u8],
    c: Counts,
    s: Sizes,
    d: u16,
) -> Sizes
    requires { Clauses.RowsAsks problem.now (nodes_edges nodes.old edges.old) c s d }
    ensures { Clauses.RowsGives problem.now (nodes_edges nodes.old edges.old) c s d result
        (nodes_edges nodes.new edges.new) }
{
    let x = load_state(nodes, d as usize);
    let set = node_set(x);
    let mut sizes = s;
    let mut next_row = 0;
    let mut from = 0;
    while let Some(exist) = next_exist(problem, nodes, set, next_row) {
        let Some((index, child)) = next_child(nodes, edges, c, x, from) else {
            return sizes;
        };
        next_row = exist.row + 1;
        from = index + 1;
        let y = descend(nodes, edges, c, child);
        sizes = meet(nodes, edges, c, sizes, d, exist.role, y);
    }
    sizes
}

// Begins the walk with state y as element 0.
fn start(nodes: &mut [u8], c: Counts, y: u16) -> Sizes
    requires { Clauses.StartAsks nodes.old c y }
    ensures { Clauses.StartGives nodes.old c y result nodes.new }
{
    clear_numbers(nodes, c);
    store_number(nodes, y as usize, 1);
    store_state(nodes, 0, y);
    Sizes {
        elements: 1,
        links: 0,
    }
}

// Walks the example, and keeps it in the marks.
pub fn walk(problem: &[u64], nodes: &mut [u8], edges: &mut [u8], c: Counts) -> Sizes
    requires { Clauses.WalkAsks problem.now (nodes_edges nodes.old edges.old) c }
    ensures { Clauses.WalkGives problem.now (nodes_edges nodes.old edges.old) c result
        (nodes_edges nodes.new edges.new) }
{
    let first = descend(nodes, edges, c, 0);
    let mut s = start(nodes, c, first);
    let mut d = 0;
    while d < s.elements {
        // no range: elements are added on the way
        s = walk_rows(problem, nodes, edges, c, s, d as u16);
        d += 1;
    }
    s
}
