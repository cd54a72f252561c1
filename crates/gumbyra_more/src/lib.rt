// The calls of the archive `libgumbyra_more.a`, through the C convention: what each promises is what the function that it calls promises.
//
// In order: the engine's call with several wanted rows; the text of a file that is read with them; the catalogue's call.
// They are no calls of `gumbyra`, since what calls of one archive share is not inlined into each, and the order program's call would be
// slower (docs/DECISIONS.md, D74).
#![tactic(auto)]

ghost use Rattle.std.specs.Prelude.{◌≡◌, length, take};
ghost use Rattle.decoding.specs.Decoding.{rule_kinds};
ghost use Rattle.rulefile.specs.Format.{text_for};
ghost use Rattle.answers.specs.Numbers as Answers;
ghost use Rattle.run.specs.Run as Run;
ghost use Rattle.run.specs.Promise.{PromiseFor};
ghost use Rattle.subsumption.specs.Catalogue.{areas_of};
ghost use Rattle.subsumption.specs.Promise.{CataloguePromise};
ghost use Rattle.catalogue.specs.Clauses.{numbers_of};

use answers::Answer;
use catalogue::Page;

// Whether a member of all the wanted rows can exist: `engine::fit_wanted`.
#[unsafe(no_mangle)]
pub extern "C" fn gumbyra_fit_wanted(
    file: &[u8],
    wanted: &[u8],
    nodes: &mut [u8],
    edges: &mut [u8],
    alternatives: &mut [u8],
    elements: &mut [u8],
    links: &mut [u8],
) -> Answer
    ensures { PromiseFor wanted.now file.now
        (Run.areas_of nodes.old edges.old alternatives.old elements.old links.old)
        (Answers.numbers_of result)
        (Run.areas_of nodes.new edges.new alternatives.new elements.new links.new) }
{
    engine::fit_wanted(file, wanted, nodes, edges, alternatives, elements, links)
}

// How much of a rule file that is read with these wanted rows is its text: `engine::text_length_wanted`.
#[unsafe(no_mangle)]
pub extern "C" fn gumbyra_text_wanted(file: &[u8], wanted: &[u8]) -> usize
    ensures { (result ≡ length (text_for rule_kinds wanted.now file.now))
        × (take result file.now ≡ text_for rule_kinds wanted.now file.now) }
{
    engine::text_length_wanted(file, wanted)
}

// Which names are under which, written into the table: `catalogue::classify`.
#[unsafe(no_mangle)]
pub extern "C" fn gumbyra_catalogue(
    file: &[u8],
    nodes: &mut [u8],
    edges: &mut [u8],
    alternatives: &mut [u8],
    table: &mut [u8],
) -> Page
    ensures { CataloguePromise file.now
        (areas_of nodes.old edges.old alternatives.old table.old)
        (numbers_of result)
        (areas_of nodes.new edges.new alternatives.new table.new) }
{
    catalogue::classify(file, nodes, edges, alternatives, table)
}
