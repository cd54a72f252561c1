// The engine (00, demands 1 to 3; 02, [4] and [7]): a rule file, wanted rows and five lent areas in, the answer out. Through the C convention it is
// called in `gumbyra` and `gumbyra_more`.
//
// In order: the answer's numbers; an accepted file; every file, with wanted rows that are given and with its own; the text of a file, likewise.
// Runs with no example, for whoever asks often of one file, are in asking.rt.
#![tactic(auto)]

ghost use Rattle.std.specs.Prelude.{◌≡◌, ◌≤◌, length, take};
ghost use Rattle.answers.specs.Numbers.{numbers_of};
ghost use Rattle.rulefile.specs.Format.{text_for, text_of};
ghost use Rattle.decoding.specs.Decoding.{rule_kinds};
ghost use Rattle.reader.specs.Read.{LaidFor};
ghost use Rattle.words.specs.Sizes.{most_records};
ghost use Rattle.run.specs.Run.{areas_of, verdict_with, refused_with, short_refusal, short_with, too_long_with};
ghost use Rattle.run.specs.Promise.{PromiseFor, Promise};
ghost use Rattle.graph.specs.Graphs.{area_of};
ghost use Rattle.conclusion.specs.Clauses.{used_of, SmallCounts, SmallSizes, Small};
ghost use Rattle.engine.specs.Clauses.{decided_numbers, Answered};

use answers::{Answer, CAN, CANNOT, NO_ALTERNATIVE, NO_EDGE, NO_NODE, TOO_LONG};
use conclusion::{Decision, Shortage, decide};
use decoder::decode_file;
use decoding::RULE_KINDS;
use graph::{Area, Counts};
use marks::Sizes;
use problem::layout::WORDS;
use reader::{Layout, read_for, text, text_for, wanted_of};
use records::clear;

pub mod asking;

// A refusal: "Each gives its number and zeros elsewhere".
fn refused(n: u32) -> Answer
    ensures { numbers_of result ≡ refused_with n }
{
    Answer {
        refusal: n,
        ..Answer::default()
    }
}

// A verdict, with the records used and the example's sizes.
fn verdict(n: u32, c: Counts, s: Sizes) -> Answer
    requires { SmallCounts c × SmallSizes s }
    ensures { numbers_of result ≡ verdict_with n (used_of c) s.elements s.links }
{
    Answer {
        verdict: n,
        nodes: c.nodes as u32,
        edges: c.edges as u32,
        alternatives: c.alternatives as u32,
        elements: s.elements as u32,
        links: s.links as u32,
        ..Answer::default()
    }
}

// Refusal 11, with the example's sizes.
fn too_long(s: Sizes) -> Answer
    requires { SmallSizes s }
    ensures { numbers_of result ≡ too_long_with s.elements s.links }
{
    Answer {
        refusal: TOO_LONG,
        elements: s.elements as u32,
        links: s.links as u32,
        ..Answer::default()
    }
}

// The refusal for a record that has no place in this area.
fn no_place(area: Area) -> u32
    ensures { result ≡ short_refusal (area_of area) }
{
    match area {
        Area::Nodes => NO_NODE,
        Area::Edges => NO_EDGE,
        Area::Alternatives => NO_ALTERNATIVE,
    }
}

// That refusal, with how many records of the kind count as lent.
fn short(area: Area, lent: usize) -> Answer
    requires { lent ≤ most_records }
    ensures { numbers_of result ≡ short_with (area_of area) lent }
{
    Answer {
        refusal: no_place(area),
        lent: lent as u32,
        ..Answer::default()
    }
}

// The numbers of a decision, or of what there is in its place.
fn answer_of(d: Result<Decision, Shortage>) -> Answer
    requires { Small d }
    ensures { numbers_of result ≡ decided_numbers d }
{
    match d {
        Err(Shortage::NoPlace(area, lent)) => short(area, lent),
        Err(Shortage::TooLong(s)) => too_long(s),
        Ok(Decision::Cannot(c)) => verdict(
            CANNOT,
            c,
            Sizes {
                elements: 0,
                links: 0,
            },
        ),
        Ok(Decision::Can(c, s)) => verdict(CAN, c, s),
    }
}

// Decodes and decides a file that is accepted with these wanted rows; then "every byte of all three is zero".
fn fit_accepted(
    file: &[u8],
    layout: Layout,
    wanted: &[u8],
    nodes: &mut [u8],
    edges: &mut [u8],
    alternatives: &mut [u8],
    elements: &mut [u8],
    links: &mut [u8],
) -> Answer
    requires { LaidFor rule_kinds wanted.now file.now layout }
    ensures { Answered wanted.now file.now
        (areas_of nodes.old edges.old alternatives.old elements.old links.old)
        (numbers_of result)
        (areas_of nodes.new edges.new alternatives.new elements.new links.new) }
{
    let mut words = [0u64; WORDS];
    decode_file(file, layout, wanted, &mut words);
    let d = decide(&words, nodes, edges, alternatives, elements, links);
    clear(nodes);
    clear(edges);
    clear(alternatives);
    answer_of(d)
}

// Whether a member of all the wanted rows can exist, in place of the file's own wanted row. What is promised of the answer and of all five areas is
// `PromiseFor`, for every file.
pub fn fit_wanted(
    file: &[u8],
    wanted: &[u8],
    nodes: &mut [u8],
    edges: &mut [u8],
    alternatives: &mut [u8],
    elements: &mut [u8],
    links: &mut [u8],
) -> Answer
    ensures { PromiseFor wanted.now file.now
        (areas_of nodes.old edges.old alternatives.old elements.old links.old)
        (numbers_of result)
        (areas_of nodes.new edges.new alternatives.new elements.new links.new) }
{
    match read_for(file, RULE_KINDS, wanted) {
        Err(refusal) => refused(refusal.number() as u32),
        Ok(layout) => fit_accepted(
            file,
            layout,
            wanted,
            nodes,
            edges,
            alternatives,
            elements,
            links,
        ),
    }
}

// Whether the kit that the rule file wants can exist: the same with the file's own wanted row. What is promised is `Promise`, for every file.
pub fn fit(
    file: &[u8],
    nodes: &mut [u8],
    edges: &mut [u8],
    alternatives: &mut [u8],
    elements: &mut [u8],
    links: &mut [u8],
) -> Answer
    ensures { Promise file.now
        (areas_of nodes.old edges.old alternatives.old elements.old links.old)
        (numbers_of result)
        (areas_of nodes.new edges.new alternatives.new elements.new links.new) }
{
    fit_wanted(
        file,
        wanted_of(file),
        nodes,
        edges,
        alternatives,
        elements,
        links,
    )
}

// How much of a file that is read with these wanted rows is its text, which is the part before the rows: nothing of a refused file.
// The text is so many bytes at the start of the file.
pub fn text_length_wanted(file: &[u8], wanted: &[u8]) -> usize
    ensures { (result ≡ length (text_for rule_kinds wanted.now file.now))
        × (take result file.now ≡ text_for rule_kinds wanted.now file.now) }
{
    text_for(file, RULE_KINDS, wanted).len()
}

// The same with the file's own wanted row.
pub fn text_length(file: &[u8]) -> usize
    ensures { (result ≡ length (text_of rule_kinds file.now)) × (take result file.now ≡ text_of rule_kinds file.now) }
{
    text(file, RULE_KINDS).len()
}
