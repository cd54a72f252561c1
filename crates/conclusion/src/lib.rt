// What a run decides (01, The procedure; The example; Refusals; 02, [4]): the verdict, and with "can" the example in its areas.
//
// In order: a verdict; a decision, and what is too short for one; how many records are lent; whether an example fits; whether a status of the root
// says "can"; the verdict of a run, with no example; the example; the decision.
#![tactic(auto)]

ghost use Rattle.std.specs.Prelude.{◌≡◌, ◌&&◌, ◌*◌, leb};
ghost use Rattle.words.specs.Sizes.{set_size, link_size};
ghost use Rattle.records.specs.Codes.{status_of};
ghost use Rattle.graph.specs.Graphs.{work, area_of};
ghost use Rattle.procedure.specs.Graph.{room_for};
ghost use Rattle.run.specs.Run.{room_in, areas_of};
ghost use Rattle.run.specs.Said.{good_root};
ghost use Rattle.problem.specs.Decoded.{Decoded};
ghost use Rattle.walk.specs.Clauses.{nodes_edges, WalkAsks};
ghost use Rattle.conclusion.specs.Clauses.{SmallSizes, VerdictGives, ShowGives, DecideGives};

use graph::{Area, Counts};
use marks::Sizes;
use records::{Status, room, status_of};
use rounds::run;
use walk::walk;
use words::sizes::{ALTERNATIVE_BYTES, EDGE_BYTES, LINK_BYTES, NODE_BYTES, SET_BYTES};
use writing::write_example;

// "Cannot" or "can", with the records used.
#[derive(Clone, Copy)]
pub enum Verdict {
    Cannot(Counts),
    Can(Counts),
}

// "Cannot", with the records used; "can", with these and the example's sizes.
#[derive(Clone, Copy)]
pub enum Decision {
    Cannot(Counts),
    Can(Counts, Sizes),
}

// Why there is no decision: a record found no place in an area, where so many count as lent; "can", and an area is too short for its example.
#[derive(Clone, Copy)]
pub enum Shortage {
    NoPlace(Area, usize),
    TooLong(Sizes),
}

// How many records of an area's kind count as lent, where the three areas have these lengths.
fn lent(area: Area, nodes: usize, edges: usize, alternatives: usize) -> usize
    ensures { result ≡ room_for (room_in nodes edges alternatives) (area_of area) }
{
    match area {
        Area::Nodes => room(nodes, NODE_BYTES),
        Area::Edges => room(edges, EDGE_BYTES),
        Area::Alternatives => room(alternatives, ALTERNATIVE_BYTES),
    }
}

// Whether example areas of these lengths have room.
fn fits(sizes: Sizes, elements: usize, links: usize) -> bool
    requires { SmallSizes sizes }
    ensures { result ≡ (leb (set_size * sizes.elements) elements && leb (link_size * sizes.links) links) }
{
    (SET_BYTES * sizes.elements <= elements) & (LINK_BYTES * sizes.links <= links)
}

// "Root yes or open means "can"".
fn says_can(root: Status) -> bool
    ensures { result ≡ good_root (status_of root) }
{
    matches!(root, Status::Sat | Status::Open)
}

// Runs the procedure on a decoded problem, with no example; or a record finds no place in an area. The work areas are left as the run left them.
pub fn verdict_of(
    problem: &[u64],
    nodes: &mut [u8],
    edges: &mut [u8],
    alternatives: &mut [u8],
) -> Result<Verdict, Area>
    requires { Decoded problem.now }
    ensures { VerdictGives problem.now (work nodes.old edges.old alternatives.old)
        result (work nodes.new edges.new alternatives.new) }
{
    let c = run(problem, nodes, edges, alternatives)?;
    if says_can(status_of(nodes, 0)) {
        Ok(Verdict::Can(c))
    } else {
        Ok(Verdict::Cannot(c))
    }
}

// The example after "can": it is written if both its areas have room.
fn show(
    problem: &[u64],
    nodes: &mut [u8],
    edges: &mut [u8],
    c: Counts,
    elements: &mut [u8],
    links: &mut [u8],
) -> Result<Decision, Shortage>
    requires { WalkAsks problem.now (nodes_edges nodes.old edges.old) c }
    ensures { ShowGives problem.now nodes.old edges.old c elements.old links.old
        result elements.new links.new }
{
    let sizes = walk(problem, nodes, edges, c);
    if fits(sizes, elements.len(), links.len()) {
        write_example(problem, nodes, edges, sizes, elements, links);
        Ok(Decision::Can(c, sizes))
    } else {
        Err(Shortage::TooLong(sizes))
    }
}

// Runs the procedure on a decoded problem, and decides. The work areas are left as they are then.
pub fn decide(
    problem: &[u64],
    nodes: &mut [u8],
    edges: &mut [u8],
    alternatives: &mut [u8],
    elements: &mut [u8],
    links: &mut [u8],
) -> Result<Decision, Shortage>
    requires { Decoded problem.now }
    ensures { DecideGives problem.now
        (areas_of nodes.old edges.old alternatives.old elements.old links.old)
        result elements.new links.new }
{
    match verdict_of(problem, nodes, edges, alternatives) {
        Err(area) => {
            let lent = lent(area, nodes.len(), edges.len(), alternatives.len());
            Err(Shortage::NoPlace(area, lent))
        }
        Ok(Verdict::Cannot(c)) => Ok(Decision::Cannot(c)),
        Ok(Verdict::Can(c)) => show(problem, nodes, edges, c, elements, links),
    }
}
