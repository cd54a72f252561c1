// The inclusions of a problem, written into its words (02, [6]): along which roles a row reaches, and which roles are narrower than a role.
//
// In order: each role is narrower than itself; rows that reach along further roles, in one word of the masks and in all; further narrower roles;
// a pair of roles more; the inclusion in a row; all.
ghost use Rattle.std.specs.Prelude.{◌≤◌, ◌<◌, length};
ghost use Rattle.words.specs.Sizes.{set_words, width};
ghost use Rattle.problem.specs.Layout.{room};
ghost use Rattle.problem.specs.Decoded.{count_of, RowsDecoded};
ghost use Rattle.decoder.specs.Chaining.{Sames, JoinsWord, JoinsUniversals, JoinsNarrows, InUse, Chains, RolesAt, IncludesRow, Included};

use crate::word_if;
use decoding::kinds::INCLUSION;
use problem::inverse;
use problem::layout::{COUNT, NARROWS, ROLES, ROWS, UNIVERSALS, USED};
use words::sizes::SET_WORDS;

// Each role is narrower than itself.
pub fn put_sames(out: &mut [u64])
    requires { room ≤ length out.old }
    ensures { Sames 32 out.old out.new }
{
    for code in 0..ROLES {
        out[NARROWS + code] = 1u64 << code;
    }
}

// Along each role that is narrower than the first, the rows of word j that reach along the second, if there are any.
// Each mask is written, so that the loop has no branch.
fn join_word(out: &mut [u64], narrow: usize, wide: usize, j: usize)
    requires { (narrow < 32) × (wide < 32) × (j < set_words) × (room ≤ length out.old) }
    ensures { JoinsWord j 32 narrow wide out.old out.new }
{
    let reached = out[UNIVERSALS + SET_WORDS * wide + j];
    if reached == 0 {
        return;
    }
    let narrower = out[NARROWS + narrow];
    for code in 0..ROLES {
        let i = UNIVERSALS + SET_WORDS * code + j;
        out[i] |= word_if((narrower >> code) % 2 == 1, reached);
    }
}

// Along each role that is narrower than the first, the rows that reach along the second.
fn join_universals(out: &mut [u64], narrow: usize, wide: usize)
    requires { (narrow < 32) × (wide < 32) × (room ≤ length out.old) × InUse out.old }
    ensures { JoinsUniversals narrow wide out.old out.new }
{
    for j in 0..out[USED] as usize {
        join_word(out, narrow, wide, j);
    }
}

// For each role that the second is narrower than, the roles that are narrower than the first.
fn join_narrows(out: &mut [u64], narrow: usize, wide: usize)
    requires { (narrow < 32) × (wide < 32) × (room ≤ length out.old) }
    ensures { JoinsNarrows 32 narrow wide out.old out.new }
{
    let narrower = out[NARROWS + narrow];
    for code in 0..ROLES {
        let known = out[NARROWS + code];
        out[NARROWS + code] = known | word_if((known >> wide) % 2 == 1, narrower);
    }
}

// Chains one role to another: what is narrower than the first is narrower than all that the second is narrower than.
fn chain(out: &mut [u64], narrow: usize, wide: usize)
    requires { (narrow < 32) × (wide < 32) × (room ≤ length out.old) × InUse out.old }
    ensures { Chains narrow wide out.old out.new }
{
    join_universals(out, narrow, wide);
    join_narrows(out, narrow, wide);
}

// The inclusion in row k, if row k is one: its roles, and both turned round.
fn put_inclusion(out: &mut [u64], k: usize)
    requires { (k < width) × (room ≤ length out.old) × InUse out.old × RolesAt out.old k }
    ensures { IncludesRow k out.old out.new }
{
    let [kind, narrow, wide, ..] = out[ROWS + k].to_le_bytes();
    if kind == INCLUSION {
        chain(out, narrow as usize, wide as usize);
        chain(out, inverse(narrow) as usize, inverse(wide) as usize);
    }
}

// All inclusions, row by row.
pub fn put_inclusions(out: &mut [u64])
    requires { RowsDecoded out.old × Included out.old 0 out.old }
    ensures { Included out.old (count_of out.old) out.new }
{
    for k in 0..out[COUNT] as usize {
        put_inclusion(out, k);
    }
}
