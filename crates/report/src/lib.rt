// The program's work, from the bytes of a rule file to the bytes that are printed (01, Known runs): the program `fit` only reads and writes.
//
// In order: the areas that are lent; the text area; the report.
#![tactic(auto)]

ghost use Rattle.report.specs.Report.{Reports};

use words::sizes::{ALTERNATIVE_BYTES, EDGE_BYTES, LINK_BYTES, NODE_BYTES, SET_BYTES};

// How many records are lent of each area.
const NODES: usize = 1024 * NODE_BYTES;

const EDGES: usize = 4096 * EDGE_BYTES;

const ALTERNATIVES: usize = 4096 * ALTERNATIVE_BYTES;

const ELEMENTS: usize = 1024 * SET_BYTES;

const LINKS: usize = 8192 * LINK_BYTES;

// What the longest text needs: 64 bytes, so many for each of 1,024 elements, two digits for each byte of a set among them, and 35 for each of 8,192 links.
pub const TEXT: usize = 64 + (14 + 2 * SET_BYTES) * 1024 + 35 * 8192;

// Lends the areas, has the engine answer the file, and writes what is printed into `text`: answers how many bytes that is. It always has room.
pub fn report(file: &[u8], text: &mut [u8; TEXT]) -> usize
    ensures { Reports file.now text.old text.new result }
{
    let mut nodes = [0u8; NODES];
    let mut edges = [0u8; EDGES];
    let mut alternatives = [0u8; ALTERNATIVES];
    let mut elements = [0u8; ELEMENTS];
    let mut links = [0u8; LINKS];
    let answer = engine::fit(
        file,
        &mut nodes,
        &mut edges,
        &mut alternatives,
        &mut elements,
        &mut links,
    );
    printing::print(answer, &elements, &links, text)
}
