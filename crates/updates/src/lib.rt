// Updates over lent areas (01, The procedure): an open node is judged again, and if its status changes, so are its parents.
//
// In order: one node judged again; whether a parent is left; the parents of a node, and theirs.
// A parent's own parents are updated by a call only while other parents are left; those of the last one are updated in the loop. Both come after one
// node more is settled.
// So a nested call needs a node with two parents, and only states have more than one.
#![tactic(auto)]

ghost use Rattle.std.specs.Prelude.{◌≡◌};
ghost use Rattle.words.specs.Sizes.{edge_size};
ghost use Rattle.graph.specs.Graphs.{work, WithEdges, parents_from, AmongParents, Walks};
ghost use Rattle.updates.specs.Clauses.{UpdateAsks, RejudgeGives, ParentsGives, none_in};

use graph::{Area, Counts, next_parent};
use records::{is_open, status_of};
use tableau::judge;

// What judging an open node again came to: the counts, with its status as it was or changed.
#[derive(Clone, Copy)]
pub enum Rejudged {
    Kept(Counts),
    Changed(Counts),
}

// Judges node x again if it is open, and says whether its status changed.
fn rejudge(
    problem: &[u64],
    nodes: &mut [u8],
    edges: &mut [u8],
    alternatives: &mut [u8],
    c: Counts,
    x: u16,
) -> Result<Rejudged, Area>
    requires { UpdateAsks problem.now (work nodes.old edges.old alternatives.old) c x }
    ensures { RejudgeGives problem.now
        (work nodes.old edges.old alternatives.old) c x result
        (work nodes.new edges.new alternatives.new) }
{
    if !is_open(status_of(nodes, x as usize)) {
        return Ok(Rejudged::Kept(c));
    }
    let d = judge(problem, nodes, edges, alternatives, c, x)?;
    if is_open(status_of(nodes, x as usize)) {
        return Ok(Rejudged::Kept(d));
    }
    Ok(Rejudged::Changed(d))
}

// Whether no edge from place `from` on ends at x.
fn no_parent(nodes: &[u8], edges: &[u8], c: Counts, x: u16, from: usize) -> bool
    requires { Walks edge_size nodes.now edges.now c.nodes c.edges x from }
    ensures { WithEdges nodes.now edges.now c (λ g. AmongParents g x from → result ≡ none_in (parents_from g x from)) }
{
    next_parent(nodes, edges, c, x, from).is_none()
}

// Updates each parent of node x, in order of the edges as they are at the start.
pub fn update_parents(
    problem: &[u64],
    nodes: &mut [u8],
    edges: &mut [u8],
    alternatives: &mut [u8],
    c: Counts,
    x: u16,
) -> Result<Counts, Area>
    requires { UpdateAsks problem.now (work nodes.old edges.old alternatives.old) c x }
    ensures { ParentsGives problem.now
        (work nodes.old edges.old alternatives.old) c x result
        (work nodes.new edges.new alternatives.new) }
{
    // whose parents are updated, and the counts when the first of them was looked for
    let mut child = x;
    let mut start = c;
    let mut cur = c;
    let mut from = 0;
    while let Some((index, parent)) = next_parent(nodes, edges, start, child, from) {
        from = index + 1;
        match rejudge(problem, nodes, edges, alternatives, cur, parent)? {
            Rejudged::Kept(next) => cur = next,
            Rejudged::Changed(next) => {
                if no_parent(nodes, edges, start, child, from) {
                    // its own parents are all that is left
                    child = parent;
                    start = next;
                    cur = next;
                    from = 0;
                } else {
                    cur = update_parents(problem, nodes, edges, alternatives, next, parent)?;
                }
            }
        }
    }
    Ok(cur)
}
