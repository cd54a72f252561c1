// The records of the graph in lent areas of bytes: "nodes (64 bytes each), graph edges (16) and alternatives (16)" (01, Areas).
//
// In order: the values; tests of a status; a status and a link as numbers; how many records an area holds; where a record's set of rows is; a record read and
// written; one part of a node; an area cleared. Where each number stands is in layout.rt. The graph that three areas hold is in crate graph.
// A set of rows goes by its place and is no part of a value.
#![tactic(auto)]

ghost use Rattle.std.specs.Prelude.{◌≡◌, ◌+◌, ◌*◌, ◌^◌, ◌≤◌, ◌<◌, length, replicate};
ghost use Rattle.procedure.specs.Status.{is_open, is_live};
ghost use Rattle.procedure.specs.Graph.{with_status, with_link};
ghost use Rattle.words.specs.Words.{put_le};
ghost use Rattle.words.specs.Sizes.{node_size, edge_size, alternative_size, set_size, most_records, records_lent};
ghost use Rattle.rowset.specs.SetOf.{set_of};
ghost use Rattle.records.specs.Codes as Codes;
ghost use Rattle.records.specs.Areas.{Fits};
ghost use Rattle.records.specs.Layout.{link_kind_at, link_number_at};
ghost use Rattle.records.specs.Records as Records;

use layout::{
    FROM_AT, IS_STATE_AT, LINK_KIND_AT, LINK_NUMBER_AT, OWNER_AT, PRL_AT, PST_AT, STATUS_AT, TO_AT,
};
use rowset::copy;
use words::sizes::{ALTERNATIVE_BYTES, EDGE_BYTES, MOST_RECORDS, NODE_BYTES, SET_BYTES, SET_WORDS};
use words::{get1, get2, put1, put2};

pub mod layout;

// "a status (none, open, yes, never, small)", which stands in a byte by its place here.
#[derive(Clone, Copy, PartialEq, Eq, Debug)]
pub enum Status {
    Unset,
    Open,
    Sat,
    Unsat,
    TooSmall,
}

// "its link, which is none, a state or lapsed".
#[derive(Clone, Copy, PartialEq, Eq, Debug)]
pub enum Link {
    None,
    State(u16),
    Lapsed,
}

// A node but for its set.
#[derive(Clone, Copy, PartialEq, Eq, Debug)]
pub struct Node {
    pub status: Status,
    pub is_state: bool,
    pub pst: u16,
    pub prl: u8,
    pub link: Link,
}

#[derive(Clone, Copy, PartialEq, Eq, Debug)]
pub struct Edge {
    pub from: u16,
    pub to: u16,
}

// Whether a status is open.
pub fn is_open(s: Status) -> bool
    ensures { result ≡ is_open (Codes.status_of s) }
{
    s == Status::Open
}

// Whether a status is none or open, so that it can still be judged anew.
pub fn is_live(s: Status) -> bool
    ensures { result ≡ is_live (Codes.status_of s) }
{
    matches!(s, Status::Unset | Status::Open)
}

// The byte that stands for a status.
impl From<Status> for u8 {
    ghost from_gives = { λ s code. code ≡ Codes.status_code s };

    fn from(s: Status) -> u8 {
        s as u8
    }
}

// The status that a byte stands for.
impl From<u8> for Status {
    ghost from_gives = { λ code s. Codes.status_of s ≡ Codes.status_in code };

    fn from(code: u8) -> Status {
        match code {
            0 => Status::Unset,
            1 => Status::Open,
            2 => Status::Sat,
            3 => Status::Unsat,
            _ => Status::TooSmall,
        }
    }
}

// The link that a byte for its kind and a number of 2 bytes stand for.
impl From<(u8, u16)> for Link {
    ghost from_gives = { λ code l. Codes.link_of l ≡ Codes.link_in code.0 code.1 };

    fn from(code: (u8, u16)) -> Link {
        match code {
            (0, _) => Link::None,
            (1, x) => Link::State(x),
            _ => Link::Lapsed,
        }
    }
}

// The byte and the number that stand for a link: its kind, and the state that it names, or 0.
impl From<Link> for (u8, u16) {
    ghost from_gives = { λ l code. (code.0 ≡ Codes.link_kind l) × (code.1 ≡ Codes.link_number l) };

    fn from(l: Link) -> (u8, u16) {
        match l {
            Link::None => (0, 0),
            Link::State(x) => (1, x),
            Link::Lapsed => (2, 0),
        }
    }
}

// How many records of a size an area of a length holds.
pub fn room(len: usize, size: usize) -> usize
    requires { 0 < size }
    ensures { result ≡ records_lent size len }
{
    (len / size).min(MOST_RECORDS)
}

// Where the set of node x begins in the area of nodes.
pub fn node_set(x: u16) -> usize
    ensures { result ≡ node_size * x }
{
    NODE_BYTES * x as usize
}

// Where the set of alternative i begins in the area of alternatives.
pub fn alternative_set(i: usize) -> usize
    requires { i < most_records }
    ensures { result ≡ alternative_size * i }
{
    ALTERNATIVE_BYTES * i
}

// Writes the set s in the bytes from place `at` on. That it fits them is said here, since only of a slice it is known that its elements are bytes.
fn put_set(b: &mut [u8], at: usize, s: &[u8])
    requires { (at + set_size ≤ length b.old) × (set_size ≤ length s.now) }
    ensures { (b.new ≡ put_le b.old at set_size (set_of s.now 0)) × (set_of s.now 0 < 256 ^ set_size) }
{
    copy(b, at, s, 0, SET_WORDS);
}

// Writes a link in the node that begins at a place. That its number fits 2 bytes is said here, since only of a number of the code it is known.
fn put_link(nodes: &mut [u8], at: usize, link: Link)
    requires { at + node_size ≤ length nodes.old }
    ensures { (nodes.new ≡ put_le (put_le nodes.old (at + link_kind_at) 1 (Codes.link_kind link)) (at + link_number_at) 2
        (Codes.link_number link)) × (Codes.link_number link < 65536) }
{
    let (kind, number) = <(u8, u16)>::from(link);
    put1(nodes, at + LINK_KIND_AT, kind);
    put2(nodes, at + LINK_NUMBER_AT, number);
}

// Node x of the area, but for its set.
#[tactic(auto, unfolding(crate::specs::Records::node_in))]
pub fn load_node(nodes: &[u8], x: usize) -> Node
    requires { Fits node_size nodes.now x }
    ensures { Records.IsNode nodes.now x result }
{
    let at = NODE_BYTES * x;
    Node {
        status: status_of(nodes, x),
        is_state: is_state(nodes, x),
        pst: get2(nodes, at + PST_AT),
        prl: get1(nodes, at + PRL_AT),
        link: link_of(nodes, x),
    }
}

// Writes n with the set s as node x of the area.
pub fn store_node(nodes: &mut [u8], x: usize, s: &[u8; SET_BYTES], n: Node)
    requires { Fits node_size nodes.old x }
    ensures { Records.NodeWritten nodes.old nodes.new x (Records.node_of (set_of s.now 0) n) }
{
    let at = NODE_BYTES * x;
    put_set(nodes, at, s);
    put1(nodes, at + STATUS_AT, u8::from(n.status));
    put1(nodes, at + IS_STATE_AT, u8::from(n.is_state));
    put2(nodes, at + PST_AT, n.pst);
    put1(nodes, at + PRL_AT, n.prl);
    put_link(nodes, at, n.link);
}

// Edge i of the area.
#[tactic(auto, unfolding(crate::specs::Records::edge_in))]
pub fn load_edge(edges: &[u8], i: usize) -> Edge
    requires { Fits edge_size edges.now i }
    ensures { Records.edge_of result ≡ Records.edge_in edges.now i }
{
    let at = EDGE_BYTES * i;
    Edge {
        from: get2(edges, at + FROM_AT),
        to: get2(edges, at + TO_AT),
    }
}

// Writes d as edge i of the area.
pub fn store_edge(edges: &mut [u8], i: usize, d: Edge)
    requires { Fits edge_size edges.old i }
    ensures { Records.EdgeWritten edges.old edges.new i (Records.edge_of d) }
{
    let at = EDGE_BYTES * i;
    put2(edges, at + FROM_AT, d.from);
    put2(edges, at + TO_AT, d.to);
}

// Writes the set s of the state `owner` as alternative i of the area.
pub fn store_alternative(alternatives: &mut [u8], i: usize, s: &[u8; SET_BYTES], owner: u16)
    requires { Fits alternative_size alternatives.old i }
    ensures { Records.AlternativeWritten alternatives.old alternatives.new i
        (Records.alternative_of (set_of s.now 0) owner) }
{
    let at = ALTERNATIVE_BYTES * i;
    put_set(alternatives, at, s);
    put2(alternatives, at + OWNER_AT, owner);
}

// The status of node x of the area, and its link.
#[tactic(auto, unfolding(crate::specs::Records::node_in))]
pub fn status_of(nodes: &[u8], x: usize) -> Status
    requires { Fits node_size nodes.now x }
    ensures { Records.IsStatus nodes.now x result }
{
    Status::from(get1(nodes, NODE_BYTES * x + STATUS_AT))
}

#[tactic(auto, unfolding(crate::specs::Records::node_in))]
pub fn link_of(nodes: &[u8], x: usize) -> Link
    requires { Fits node_size nodes.now x }
    ensures { Records.IsLink nodes.now x result }
{
    let at = NODE_BYTES * x;
    Link::from((
        get1(nodes, at + LINK_KIND_AT),
        get2(nodes, at + LINK_NUMBER_AT),
    ))
}

// Whether node x of the area has no status.
#[tactic(auto, unfolding(crate::specs::Records::is_unset_at))]
pub fn is_unset(nodes: &[u8], x: usize) -> bool
    requires { Fits node_size nodes.now x }
    ensures { result ≡ Records.is_unset_at nodes.now x }
{
    matches!(status_of(nodes, x), Status::Unset)
}

// Whether node x of the area is a state.
#[tactic(auto, unfolding(crate::specs::Records::node_in))]
pub fn is_state(nodes: &[u8], x: usize) -> bool
    requires { Fits node_size nodes.now x }
    ensures { result ≡ (Records.node_in nodes.now x).is_state }
{
    get1(nodes, NODE_BYTES * x + IS_STATE_AT) == 1
}

// Gives node x of the area a status.
pub fn store_status(nodes: &mut [u8], x: usize, status: Status)
    requires { Fits node_size nodes.old x }
    ensures { Records.NodeWritten nodes.old nodes.new x
        (with_status (Codes.status_of status) (Records.node_in nodes.old x)) }
{
    put1(nodes, NODE_BYTES * x + STATUS_AT, u8::from(status));
}

// Gives node x of the area a link.
pub fn store_link(nodes: &mut [u8], x: usize, link: Link)
    requires { Fits node_size nodes.old x }
    ensures { Records.NodeWritten nodes.old nodes.new x
        (with_link (Codes.link_of link) (Records.node_in nodes.old x)) }
{
    put_link(nodes, NODE_BYTES * x, link);
}

// Every byte of the area becomes zero.
pub fn clear(area: &mut [u8])
    ensures { area.new ≡ replicate (length area.old) 0 }
{
    area.fill(0);
}
