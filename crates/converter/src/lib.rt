// The converter of drafts (02, [1] and [6]): a draft and one lent area in, a rule file in the area and the answer out.
//
// In order: the answer; a refusal; a file that fits is written; an accepted draft; the call.
#![tactic(auto)]

ghost use Rattle.std.specs.Prelude.{◌≡◌};
ghost use Rattle.decoding.specs.Decoding.{draft_kinds};
ghost use Rattle.reader.specs.Read.{Laid};
ghost use Rattle.drafts.specs.Promise.{ConversionPromise};
ghost use Rattle.converter.specs.Clauses.{numbers_of, refused_numbers, numbers_given, FinishAsks, Converts};

use decoding::DRAFT_KINDS;
use encoder::write_file;
use normalize::{TooLarge, Written};
use reader::{Layout, read, rules_of, wanted_of};
use rulefile::{LONGEST, MOST_RULES, ROW, TRAILER};

// The refusal's number and 0, or 0 and the length of the file that is written: the C interface, so no `Result`.
#[repr(C)]
#[derive(Clone, Copy)]
pub struct Conversion {
    // 1 to 8 and 16: a check refuses the draft; 12: the result is too large. 0 with a file.
    pub refusal: u32,
    // How many bytes of the area are the file.
    pub length: u32,
}

// "more than 64 rows, more than 4,096 bytes or more than the area"
const TOO_LARGE: u32 = 12;

// A refusal.
fn refused(n: u32) -> Conversion
    ensures { numbers_of result ≡ refused_numbers n }
{
    Conversion {
        refusal: n,
        length: 0,
    }
}

// Writes the file that has these rows, rules and this wanted row, if it has room, and tells its length.
fn finish(
    draft: &[u8],
    layout: Layout,
    written: &Written,
    rules: &[u8],
    wanted: u8,
    area: &mut [u8],
) -> Result<u32, TooLarge>
    requires { FinishAsks draft.now layout written.now rules.now wanted }
    ensures { Converts draft.now area.old (numbers_given result) area.new }
{
    let rows = written.rows();
    let first = layout.text;
    let list = layout.rules;
    let length = first + ROW * rows.len() + list + TRAILER;
    if (LONGEST < length) | (area.len() < length) {
        return Err(TooLarge);
    }
    write_file(area, &draft[..first], rows, &rules[..list], wanted);
    Ok(length as u32)
}

// Converts a draft that passed the checks, and tells the file's length: its inclusions first, then what its rules and its wanted row need. Rows are kept
// aside until all is known to fit.
fn convert_accepted(draft: &[u8], layout: Layout, area: &mut [u8]) -> Result<u32, TooLarge>
    requires { Laid draft_kinds draft.now layout }
    ensures { Converts draft.now area.old (numbers_given result) area.new }
{
    let mut rules = [0u8; MOST_RULES];
    let mut wanted = [0u8; 1];
    let mut written = Written::new();
    written.keep_inclusions(draft, layout.rows);
    written.put_list(draft, rules_of(draft, layout), &mut rules)?;
    written.put_list(draft, wanted_of(draft), &mut wanted)?;
    finish(draft, layout, &written, &rules, wanted[0], area)
}

// Converts a draft into a rule file, written into the area. What is promised of the answer and of the area is `ConversionPromise`, for every draft.
pub fn convert(draft: &[u8], area: &mut [u8]) -> Conversion
    ensures { ConversionPromise draft.now area.old (numbers_of result) area.new }
{
    match read(draft, DRAFT_KINDS) {
        Err(refusal) => refused(refusal.number() as u32),
        Ok(layout) => match convert_accepted(draft, layout, area) {
            Ok(length) => Conversion { refusal: 0, length },
            Err(TooLarge) => refused(TOO_LARGE),
        },
    }
}
