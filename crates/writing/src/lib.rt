// The bytes of the example, written from the spare bytes of the records (01, Areas; 02, [2]).
//
// In order: the names of all elements; a link; all links; the example, which lists every row that holds.
#![tactic(auto)]

ghost use Rattle.std.specs.Prelude.{◌≡◌, ◌+◌, ◌*◌, ◌≤◌, length};
ghost use Rattle.words.specs.Words.{overwrite};
ghost use Rattle.words.specs.Fields.{put_fields};
ghost use Rattle.words.specs.Sizes.{edge_size, link_size};
ghost use Rattle.problem.specs.Decoded.{table_of, Decoded};
ghost use Rattle.evaluation.specs.Holding.{Holding};
ghost use Rattle.records.specs.Areas.{Fits};
ghost use Rattle.marks.specs.Marks.{role_link_in};
ghost use Rattle.writing.specs.Writing as Writing;

use evaluation::evaluate;
use marks::{Sizes, load_role_link, load_state};
use records::node_set;
use rowset::put_low;
use settests::names;
use words::put2;
use words::sizes::{LINK_BYTES, SET_BYTES, SET_WORDS};

// Writes the names of each element where its rows will stand: a name holds "where the procedure placed its kind 1 row in the state's set".
fn write_names(problem: &[u64], nodes: &[u8], count: usize, elements: &mut [u8])
    requires { Decoded problem.now × Writing.ElementsAsk nodes.now count elements.old }
    ensures { Holding elements.old count
        (Writing.names_in (table_of problem.now) nodes.now) elements.new }
{
    for d in 0..count {
        let named = names(problem, nodes, node_set(load_state(nodes, d)));
        put_low(elements, SET_BYTES * d, named, SET_WORDS);
    }
}

// Writes link k: "6 bytes: from, role code, to, 2 bytes each, low byte first".
fn write_link(edges: &[u8], k: usize, links: &mut [u8])
    requires { Fits edge_size edges.now k × (link_size * k + link_size ≤ length links.old) }
    ensures { links.new ≡ put_fields links.old (link_size * k) (Writing.link_fields (role_link_in edges.now k)) }
{
    let l = load_role_link(edges, k);
    let at = LINK_BYTES * k;
    put2(links, at, l.from);
    put2(links, at + 2, l.role);
    put2(links, at + 4, l.to);
}

// Writes the links.
fn write_links(edges: &[u8], count: usize, links: &mut [u8])
    requires { Writing.LinksAsk edges.now count links.old }
    ensures { links.new ≡ overwrite (Writing.links_to edges.now count) links.old }
{
    for k in 0..count {
        write_link(edges, k, links);
    }
}

// Writes the example that the records hold into the two example areas, "only in the bytes that the example fills".
// An element lists a row "exactly if it holds there".
pub fn write_example(
    problem: &[u64],
    nodes: &[u8],
    edges: &[u8],
    sizes: Sizes,
    elements: &mut [u8],
    links: &mut [u8],
)
    requires { Writing.WriteAsks problem.now nodes.now edges.now sizes elements.old links.old }
    ensures { Writing.WriteGives problem.now nodes.now edges.now sizes
        elements.old elements.new links.old links.new }
{
    write_names(problem, nodes, sizes.elements, elements);
    write_links(edges, sizes.links, links);
    evaluate(problem, elements, sizes.elements, links, sizes.links);
}
