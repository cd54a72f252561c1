// The catalogue of names (02, [7]): which names are under which, by a run of the engine's for each pair of names.
//
// In order: the names that are listed; the answer; what a run says that wants two rows; such answers in a row, and row after row; an accepted file; every file.
// How the names are listed is in names.rt. Through the C convention the call is in `gumbyra_more`.
#![tactic(auto)]

ghost use Rattle.std.specs.Prelude.{◌≡◌};
ghost use Rattle.graph.specs.Graphs.{work, capacity_of};
ghost use Rattle.decoding.specs.Decoding.{rule_kinds};
ghost use Rattle.reader.specs.Read.{Laid};
ghost use Rattle.subsumption.specs.Catalogue.{areas_of, refusal_alone};
ghost use Rattle.subsumption.specs.Promise.{CataloguePromise};
ghost use Rattle.catalogue.specs.Clauses.{EntryAsks, EntryGives, RowAsks, RowGives, FillAsks, FillGives, numbers_of, Answered};

use decoder::decode_file;
use decoding::RULE_KINDS;
use engine::asking::{Said, ask_wanted};
use names::listed;
use problem::layout::WORDS;
use reader::{Layout, read, wanted_of};
use records::clear;
use rows::Rows;

pub mod names;
pub mod rows;

// The names with both a kind 1 and a kind 2 row: name n as bit n, and their rows in the order of names. Two vectors, and not one of pairs, since
// the table is filled from the rows of its lines and those of its columns, which need not be as many (`fill`).
#[derive(Clone, Copy)]
pub struct Listed {
    pub names: u64,
    pub positives: Rows,
    pub negatives: Rows,
}

// The answer: a refusal, or 0 if the table is filled; how many names are listed, and which, name n as bit n: both 0 with a refusal.
#[repr(C)]
#[derive(Clone, Copy)]
pub struct Page {
    pub refusal: u32,
    pub count: u32,
    pub names: u64,
}

// "Refusal 17 .. is given if the area is shorter than the square".
const TABLE_SHORT: u32 = 17;

// "1 if an a that isn't a b cannot exist, 0 if it can, 2 if the work areas didn't suffice". Numbers, as the one above: C reads them, in the table and in
// `Page`. In the library they are a `Said`.
const UNDER: u8 = 1;

const NOT_UNDER: u8 = 0;

const SHORT: u8 = 2;

// What a run says that wants a name's kind 1 row and another name's kind 2 row. The work areas are left as the run left them.
fn entry(
    problem: &mut [u64],
    positive: u8,
    negative: u8,
    nodes: &mut [u8],
    edges: &mut [u8],
    alternatives: &mut [u8],
) -> u8
    requires { EntryAsks problem.old positive negative }
    ensures { EntryGives problem.old
        (capacity_of (work nodes.old edges.old alternatives.old)) positive negative
        result problem.new }
{
    let both = [positive, negative];
    match ask_wanted(problem, &both, nodes, edges, alternatives) {
        Said::Short => SHORT,
        Said::Cannot => UNDER,
        Said::Can => NOT_UNDER,
    }
}

// A name's row of the table: its kind 1 row with each kind 2 row.
fn fill_row(
    problem: &mut [u64],
    positive: u8,
    negatives: &[u8],
    nodes: &mut [u8],
    edges: &mut [u8],
    alternatives: &mut [u8],
    row: &mut [u8],
)
    requires { RowAsks problem.old positive negatives.now row.old }
    ensures { RowGives problem.old (capacity_of (work nodes.old edges.old alternatives.old)) positive
        negatives.now
        row.old problem.new row.new }
{
    for (j, negative) in negatives.iter().enumerate() {
        row[j] = entry(problem, positive, *negative, nodes, edges, alternatives);
    }
}

// The table, "row after row". Each row from its start on, and no chunks: there may be no column, and a chunk has at least one byte.
pub fn fill(
    problem: &mut [u64],
    positives: &[u8],
    negatives: &[u8],
    nodes: &mut [u8],
    edges: &mut [u8],
    alternatives: &mut [u8],
    table: &mut [u8],
)
    requires { FillAsks problem.old positives.now negatives.now table.old }
    ensures { FillGives problem.old (capacity_of (work nodes.old edges.old alternatives.old))
        positives.now negatives.now table.old problem.new table.new }
{
    for (i, positive) in positives.iter().enumerate() {
        let at = i * negatives.len();
        fill_row(
            problem,
            *positive,
            negatives,
            nodes,
            edges,
            alternatives,
            &mut table[at..],
        );
    }
}

// A refusal, which gives no names.
fn refused(n: u32) -> Page
    ensures { numbers_of result ≡ refusal_alone n }
{
    Page {
        refusal: n,
        count: 0,
        names: 0,
    }
}

// Decodes an accepted file and lists its names. The table is filled if it has room, and then the work areas "end all zero".
fn classify_accepted(
    file: &[u8],
    layout: Layout,
    nodes: &mut [u8],
    edges: &mut [u8],
    alternatives: &mut [u8],
    table: &mut [u8],
) -> Page
    requires { Laid rule_kinds file.now layout }
    ensures { Answered file.now
        (areas_of nodes.old edges.old alternatives.old table.old)
        (numbers_of result)
        (areas_of nodes.new edges.new alternatives.new table.new) }
{
    let mut words = [0u64; WORDS];
    decode_file(file, layout, wanted_of(file), &mut words);
    // taken apart at once: kept as one value it is copied by `memcpy`, which the archive needs nowhere else
    let Listed {
        names,
        positives,
        negatives,
    } = listed(&words);
    let count = positives.len();
    if table.len() < count * count {
        return refused(TABLE_SHORT);
    }
    fill(
        &mut words,
        positives.as_slice(),
        negatives.as_slice(),
        nodes,
        edges,
        alternatives,
        table,
    );
    clear(nodes);
    clear(edges);
    clear(alternatives);
    Page {
        refusal: 0,
        count: count as u32,
        names,
    }
}

// Which names are under which, written into the table. What is promised of the answer and of all four areas is `CataloguePromise`, for every file.
pub fn classify(
    file: &[u8],
    nodes: &mut [u8],
    edges: &mut [u8],
    alternatives: &mut [u8],
    table: &mut [u8],
) -> Page
    ensures { CataloguePromise file.now
        (areas_of nodes.old edges.old alternatives.old table.old)
        (numbers_of result)
        (areas_of nodes.new edges.new alternatives.new table.new) }
{
    match read(file, RULE_KINDS) {
        Err(refusal) => refused(refusal.number() as u32),
        Ok(layout) => classify_accepted(file, layout, nodes, edges, alternatives, table),
    }
}
