// The expansion of a node over lent areas (01, The procedure).
//
// In order: what the root puts; what another state puts; the children of a state, of a node without an unfinished kind 3 row, of any node; the whole expansion.
#![tactic(auto)]

ghost use Rattle.std.specs.Prelude.{◌≡◌, ◌≢◌, ◌+◌, ◌≤◌, ◌<◌, length};
ghost use Rattle.concepts.specs.RowSet as Set;
ghost use Rattle.words.specs.Sizes.{set_size, width};
ghost use Rattle.rowset.specs.SetOf.{set_of};
ghost use Rattle.problem.specs.Decoded.{rules_of, wanted_of, Decoded};
ghost use Rattle.graph.specs.Graphs.{work};
ghost use Rattle.expansion.specs.Clauses.{ExpandAsks, DisjAsks, StateAsks, KitGives, SuccessorsGives, StateGives, DisjGives, ConjGives, ExpandGives};

use graph::{Area, Counts};
use records::{is_open, load_node, node_set, status_of};
use rowset::{copy, insert, join_mask};
use settests::{lowest_conj, lowest_disj, next_exist, successor};
use tableau::{judge, put};
use updates::update_parents;
use words::sizes::{SET_BYTES, SET_WORDS};

// "A role that no row has, turned round or not".
const NO_ROLE: u8 = 32;

// The set at a place with a row more, in an array that is lent.
fn with_row(nodes: &[u8], set: usize, row: usize, out: &mut [u8; SET_BYTES])
    requires { (set + set_size ≤ length nodes.now) × (row < width) }
    ensures { set_of out.new 0 ≡ Set.insert row (set_of nodes.now set) }
{
    copy(out, 0, nodes, set, SET_WORDS);
    insert(out, 0, row);
}

// The wanted rows and all rules, in an array that is lent with the empty set.
fn join_kit(problem: &[u64], out: &mut [u8; SET_BYTES])
    requires { Decoded problem.now × (set_of out.old 0 ≡ Set.empty) }
    ensures { set_of out.new 0 ≡ Set.union (wanted_of problem.now) (rules_of problem.now) }
{
    join_mask(out, 0, problem, problem::wanted(problem), SET_WORDS);
    join_mask(out, 0, problem, problem::rules(problem), SET_WORDS);
}

// Puts the wanted rows and all rules under the root.
fn put_kit(
    problem: &[u64],
    nodes: &mut [u8],
    edges: &mut [u8],
    alternatives: &mut [u8],
    c: Counts,
) -> Result<Counts, Area>
    requires { StateAsks problem.now (work nodes.old edges.old alternatives.old) c 0 }
    ensures { KitGives problem.now (work nodes.old edges.old alternatives.old) c result
        (work nodes.new edges.new alternatives.new) }
{
    let mut kit = [0u8; SET_BYTES];
    join_kit(problem, &mut kit);
    put(problem, nodes, edges, alternatives, c, 0, 0, NO_ROLE, &kit)
}

// Puts the successors of state x: for each kind 6 row, rising, its argument, the arguments of kind 5 rows along its role, and all rules.
fn put_successors(
    problem: &[u64],
    nodes: &mut [u8],
    edges: &mut [u8],
    alternatives: &mut [u8],
    c: Counts,
    x: u16,
) -> Result<Counts, Area>
    requires { StateAsks problem.now (work nodes.old edges.old alternatives.old) c x × (x ≢ 0) }
    ensures { SuccessorsGives problem.now (work nodes.old edges.old alternatives.old) c x result
        (work nodes.new edges.new alternatives.new) }
{
    let set = node_set(x);
    let mut cur = c;
    let mut k: usize = 0;
    while let Some(exist) = next_exist(problem, nodes, set, k) {
        k = exist.row + 1;
        let mut kit = [0u8; SET_BYTES];
        successor(problem, nodes, set, exist.role, exist.argument, &mut kit, 0);
        cur = put(
            problem,
            nodes,
            edges,
            alternatives,
            cur,
            x,
            x,
            exist.role,
            &kit,
        )?;
    }
    Ok(cur)
}

// Puts the children of state x: the root's, or those of another.
fn expand_state(
    problem: &[u64],
    nodes: &mut [u8],
    edges: &mut [u8],
    alternatives: &mut [u8],
    c: Counts,
    x: u16,
) -> Result<Counts, Area>
    requires { StateAsks problem.now (work nodes.old edges.old alternatives.old) c x }
    ensures { StateGives problem.now (work nodes.old edges.old alternatives.old) c x result
        (work nodes.new edges.new alternatives.new) }
{
    if x == 0 {
        return put_kit(problem, nodes, edges, alternatives, c);
    }
    put_successors(problem, nodes, edges, alternatives, c, x)
}

// Puts the children of node x, which has no unfinished kind 3 row: for its lowest unfinished kind 4 row, else as a state.
fn expand_disj(
    problem: &[u64],
    nodes: &mut [u8],
    edges: &mut [u8],
    alternatives: &mut [u8],
    c: Counts,
    x: u16,
) -> Result<Counts, Area>
    requires { DisjAsks problem.now (work nodes.old edges.old alternatives.old) c x }
    ensures { DisjGives problem.now (work nodes.old edges.old alternatives.old) c x result
        (work nodes.new edges.new alternatives.new) }
{
    let node = load_node(nodes, x as usize);
    let set = node_set(x);
    let p = node.pst;
    let role = node.prl;
    let Some((left, right)) = lowest_disj(problem, nodes, set) else {
        return expand_state(problem, nodes, edges, alternatives, c, x);
    };
    let mut first = [0u8; SET_BYTES];
    let mut second = [0u8; SET_BYTES];
    with_row(nodes, set, left, &mut first);
    with_row(nodes, set, right, &mut second);
    let d = put(problem, nodes, edges, alternatives, c, x, p, role, &first)?;
    put(problem, nodes, edges, alternatives, d, x, p, role, &second)
}

// Puts the children of node x: for its lowest unfinished kind 3 row, else as a node without one.
fn expand_conj(
    problem: &[u64],
    nodes: &mut [u8],
    edges: &mut [u8],
    alternatives: &mut [u8],
    c: Counts,
    x: u16,
) -> Result<Counts, Area>
    requires { ExpandAsks problem.now (work nodes.old edges.old alternatives.old) c x }
    ensures { ConjGives problem.now (work nodes.old edges.old alternatives.old) c x result
        (work nodes.new edges.new alternatives.new) }
{
    let node = load_node(nodes, x as usize);
    let set = node_set(x);
    let p = node.pst;
    let role = node.prl;
    let Some((left, right)) = lowest_conj(problem, nodes, set) else {
        return expand_disj(problem, nodes, edges, alternatives, c, x);
    };
    let mut both = [0u8; SET_BYTES];
    with_row(nodes, set, right, &mut both);
    insert(&mut both, 0, left);
    put(problem, nodes, edges, alternatives, c, x, p, role, &both)
}

// Expands node x, which has no status: its children are put, its status is set, and its parents are updated.
// None counts as open, so where x is merely open the updates would change nothing, and are not made.
pub fn expand(
    problem: &[u64],
    nodes: &mut [u8],
    edges: &mut [u8],
    alternatives: &mut [u8],
    c: Counts,
    x: u16,
) -> Result<Counts, Area>
    requires { ExpandAsks problem.now (work nodes.old edges.old alternatives.old) c x }
    ensures { ExpandGives problem.now (work nodes.old edges.old alternatives.old) c x result
        (work nodes.new edges.new alternatives.new) }
{
    let d = expand_conj(problem, nodes, edges, alternatives, c, x)?;
    let b = judge(problem, nodes, edges, alternatives, d, x)?;
    if is_open(status_of(nodes, x as usize)) {
        return Ok(b);
    }
    update_parents(problem, nodes, edges, alternatives, b, x)
}
