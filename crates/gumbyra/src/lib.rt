// The calls of the archive `libgumbyra.a`, through the C convention: what each promises is what the function that it calls promises.
//
// In order: the order program's, which are the engine's call and the text of a rule file; the converter's call. Every other is in `gumbyra_more`.
#![tactic(auto)]

ghost use Rattle.std.specs.Prelude.{◌≡◌, length, take};
ghost use Rattle.decoding.specs.Decoding.{rule_kinds};
ghost use Rattle.rulefile.specs.Format.{text_of};
ghost use Rattle.run.specs.Run.{areas_of};
ghost use Rattle.run.specs.Promise.{Promise};
ghost use Rattle.answers.specs.Numbers.{numbers_of};
ghost use Rattle.drafts.specs.Promise as Drafts;
ghost use Rattle.converter.specs.Clauses as Converter;

use answers::Answer;
use converter::Conversion;

// Whether the kit that the rule file wants can exist: `engine::fit`.
#[unsafe(no_mangle)]
pub extern "C" fn gumbyra_fit(
    file: &[u8],
    nodes: &mut [u8],
    edges: &mut [u8],
    alternatives: &mut [u8],
    elements: &mut [u8],
    links: &mut [u8],
) -> Answer
    ensures { Promise file.now
        (areas_of nodes.old edges.old alternatives.old elements.old links.old)
        (numbers_of result)
        (areas_of nodes.new edges.new alternatives.new elements.new links.new) }
{
    engine::fit(file, nodes, edges, alternatives, elements, links)
}

// How much of the rule file is its text: `engine::text_length`.
#[unsafe(no_mangle)]
pub extern "C" fn gumbyra_text(file: &[u8]) -> usize
    ensures { (result ≡ length (text_of rule_kinds file.now)) × (take result file.now ≡ text_of rule_kinds file.now) }
{
    engine::text_length(file)
}

// The rule file that the draft becomes, written into the area: `converter::convert`.
#[unsafe(no_mangle)]
pub extern "C" fn gumbyra_convert(draft: &[u8], area: &mut [u8]) -> Conversion
    ensures { Drafts.ConversionPromise draft.now area.old (Converter.numbers_of result) area.new }
{
    converter::convert(draft, area)
}
