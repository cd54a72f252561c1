// The run of the procedure over lent areas (01, The procedure).
//
// In order: the rounds; the whole run.
#![tactic(auto)]

ghost use Rattle.graph.specs.Graphs.{work};
ghost use Rattle.problem.specs.Decoded.{Decoded};
ghost use Rattle.rounds.specs.Clauses.{RoundsAsks, RoundsGives, RunGives};

use expansion::expand;
use graph::{Area, Counts, NO_RECORDS, add_node, lowest_unset};
use records::{Link, Node, Status, is_live, status_of};
use words::sizes::SET_BYTES;

// Expands the lowest node without status, which is looked for from the one before on, "until the root is yes, never or small or no node lacks a status".
fn rounds(
    problem: &[u64],
    nodes: &mut [u8],
    edges: &mut [u8],
    alternatives: &mut [u8],
    c: Counts,
) -> Result<Counts, Area>
    requires { RoundsAsks problem.now (work nodes.old edges.old alternatives.old) c }
    ensures { RoundsGives problem.now
        (work nodes.old edges.old alternatives.old) c result
        (work nodes.new edges.new alternatives.new) }
{
    let mut cur = c;
    // every node below has a status
    let mut from = 0;
    while is_live(status_of(nodes, 0)) {
        let Some(x) = lowest_unset(nodes, cur, from) else {
            return Ok(cur);
        };
        cur = expand(problem, nodes, edges, alternatives, cur, x)?;
        from = x as usize;
    }
    Ok(cur)
}

// Runs the procedure on a decoded problem. "Node 0 is the root, a state with the empty set".
pub fn run(
    problem: &[u64],
    nodes: &mut [u8],
    edges: &mut [u8],
    alternatives: &mut [u8],
) -> Result<Counts, Area>
    requires { Decoded problem.now }
    ensures { RunGives problem.now
        (work nodes.old edges.old alternatives.old) result
        (work nodes.new edges.new alternatives.new) }
{
    let empty = [0u8; SET_BYTES];
    let root = Node {
        status: Status::Unset,
        is_state: true,
        pst: 0,
        prl: 0,
        link: Link::None,
    };
    let c = add_node(nodes, NO_RECORDS, &empty, root)?;
    rounds(problem, nodes, edges, alternatives, c)
}
