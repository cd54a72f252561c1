// The reader of rule files (01, The rule file; Refusals; 02, [6] and [7]): the first check that refuses a file, or its layout; the parts of a file.
//
// A rule file is read with `decoding`'s RULE_KINDS. Which rows are wanted is a parameter, or the file's own row.
#![tactic(auto)]

ghost use Rattle.std.specs.Prelude.{◌≡◌, [], ◌≤◌, ◌<◌, length};
ghost use Rattle.rulefile.specs.Format as Format;
ghost use Rattle.rulefile.specs.Checks.{Parted};
ghost use Rattle.reader.specs.Read.{numbered, read_of, trailer_layout, Starts, Placed};

use checks::{Refusal, check, first_row, row_count, rule_count};
use rulefile::{ROW, TRAILER};

// The length of the text, which is the place of the first row, and the numbers of rows and rules.
#[derive(Clone, Copy)]
pub struct Layout {
    pub text: usize,
    pub rows: usize,
    pub rules: usize,
}

// The wanted row stands four bytes before the end of a file.
const WANTED: usize = 4;

// The layout of a file that passed all checks.
fn layout_of(file: &[u8]) -> Layout
    requires { Parted file.now }
    ensures { result ≡ trailer_layout file.now }
{
    Layout {
        text: first_row(file) as usize,
        rows: row_count(file) as usize,
        rules: rule_count(file) as usize,
    }
}

// The refusal of the first check that refuses the file with these wanted rows, or the layout of the file.
pub fn read_for(file: &[u8], kinds: u16, wanted: &[u8]) -> Result<Layout, Refusal>
    ensures { numbered result ≡ read_of (Format.reading_for kinds wanted.now file.now) }
{
    check(file, kinds, wanted)?;
    Ok(layout_of(file))
}

// The file's own wanted row, as a list of one; of a file that is too short to have one, nothing.
pub fn wanted_of(file: &[u8]) -> &[u8]
    ensures { (8 ≤ length file.now → result.now ≡ Format.wanted_rows file.now)
        × (length file.now < 8 → result.now ≡ []) }
{
    if file.len() < TRAILER {
        return &file[..0];
    }
    let at = file.len() - WANTED;
    &file[at..at + 1]
}

// The same with the file's own wanted row.
pub fn read(file: &[u8], kinds: u16) -> Result<Layout, Refusal>
    ensures { numbered result ≡ read_of (Format.reading_of kinds file.now) }
{
    read_for(file, kinds, wanted_of(file))
}

// The text of a file that is read with these wanted rows: the part of the file before the rows, of a refused file the empty part at its start.
pub fn text_for<'a, 'b>(file: &'a [u8], kinds: u16, wanted: &'b [u8]) -> &'a [u8]
    ensures { (result.now ≡ Format.text_for kinds wanted.now file.now) × Starts result.ref_ptr file.entry.ref_ptr 0 }
{
    match read_for(file, kinds, wanted) {
        Err(_) => &file[..0],
        Ok(layout) => &file[..layout.text],
    }
}

// The same with the file's own wanted row.
pub fn text(file: &[u8], kinds: u16) -> &[u8]
    ensures { (result.now ≡ Format.text_of kinds file.now) × Starts result.ref_ptr file.entry.ref_ptr 0 }
{
    text_for(file, kinds, wanted_of(file))
}

// The rows of an accepted file.
pub fn rows_of(file: &[u8], layout: Layout) -> &[u8]
    requires { Placed file.now layout }
    ensures { result.now ≡ Format.rows_part file.now }
{
    let rows = layout.text;
    &file[rows..rows + ROW * layout.rows]
}

// The rules of an accepted file, a list of row numbers.
pub fn rules_of(file: &[u8], layout: Layout) -> &[u8]
    requires { Placed file.now layout }
    ensures { result.now ≡ Format.rules file.now }
{
    let rules = layout.text + ROW * layout.rows;
    &file[rules..rules + layout.rules]
}
