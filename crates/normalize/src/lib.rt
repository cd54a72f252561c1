// The rows of a draft in negation normal form (02, [1] and [6]): its role inclusions, then what its rules and its wanted row need, each row once.
//
// In order: what becomes of a row; rows as words; what is written: sharing equal rows; a row with all that it needs; a list of rows; the inclusions.
// Which place a row of the draft, or its opposite, has got is remembered, so that each is put once.
#![tactic(auto)]

ghost use Rattle.std.specs.Prelude.{◌≡◌, ◌+◌, ◌*◌, ◌≤◌, ◌<◌, ◌==◌, length, take, position};
ghost use Rattle.concepts.specs.Concept.{NoInclusion};
ghost use Rattle.rulefile.specs.Format.{row_count, most_rows};
ghost use Rattle.normalize.specs.Shapes.{table_of, written_kind, ShapeAt, slots, slot_of};
ghost use Rattle.normalize.specs.Clauses.{Draft, ShareAsks, SharesRow, PutAsks, PutGives, ListAsks, ListGives, nothing_written, KeepAsks, Kept, KeepGives};

use checks::inclusions::some_inclusion;
use checks::row_byte;
use decoding::kinds::{ATOMIC, CONJ, DISJ, EXIST, IMPL, INCLUSION, NEG, NEGATED, UNIV};
use rulefile::MOST_ROWS;

// What becomes of a row: a row without arguments (kind, name); what becomes of another row (sign, row); a row over one (kind, role, sign, row) or over two
// (kind, sign, row, sign, row). The sign says whether the row is needed as it stands or its opposite is.
#[derive(Clone, Copy)]
enum Shape {
    Literal(u8, u8),
    Other(bool, u8),
    Unary(u8, u8, bool, u8),
    Binary(u8, bool, u8, bool, u8),
}

// Places that are remembered: two for each row of a draft.
const SLOTS: usize = 2 * MOST_ROWS;

// The kind that is written for a row of a kind, or for its opposite.
fn written_kind(kind: u8, sign: bool) -> u8
    ensures { result ≡ written_kind kind sign }
{
    if sign {
        if kind == IMPL {
            return DISJ;
        }
        return kind;
    }
    match kind {
        ATOMIC => NEGATED,
        NEGATED => ATOMIC,
        CONJ => DISJ,
        DISJ => CONJ,
        UNIV => EXIST,
        EXIST => UNIV,
        _ => CONJ,
    }
}

// What becomes of row k of the draft, which is no inclusion, or of its opposite.
fn shape_of(draft: &[u8], k: usize, sign: bool) -> Shape
    requires { Draft draft.now × (k < row_count draft.now) × NoInclusion (table_of draft.now) k }
    ensures { ShapeAt draft.now k sign result }
{
    let kind = row_byte(draft, k, 0);
    let role = row_byte(draft, k, 1);
    let left = row_byte(draft, k, 2);
    let right = row_byte(draft, k, 3);
    let written = written_kind(kind, sign);
    if kind <= NEGATED {
        return Shape::Literal(written, left);
    }
    if (kind == UNIV) | (kind == EXIST) {
        return Shape::Unary(written, role, sign, left);
    }
    if kind == NEG {
        return Shape::Other(!sign, left);
    }
    if kind == IMPL {
        return Shape::Binary(written, !sign, left, sign, right);
    }
    Shape::Binary(written, sign, left, sign, right)
}

// A row as a word: its four bytes, low byte first.
fn row_word(kind: u8, role: u8, left: u8, right: u8) -> u32
    ensures { result ≡ kind + 256 * role + 65536 * left + 16777216 * right }
{
    u32::from_le_bytes([kind, role, left, right])
}

// Where the place of a row, or of its opposite, is remembered.
fn slot(k: usize, sign: bool) -> usize
    requires { k < most_rows }
    ensures { (result ≡ slot_of k sign) × (result < slots) }
{
    if sign { 2 * k } else { 2 * k + 1 }
}

// What a draft becomes is too large: here, it has more rows than a file can have.
#[derive(Clone, Copy)]
pub struct TooLarge;

// What is written so far: rows as words, as the definitions have them, so many at the start; and for each row of the draft, and for its opposite,
// which place it has got.
// The draft is no field: it is only read, and each method would have to promise that it stays.
#[derive(Clone, Copy)]
pub struct Written {
    pub words: [u32; MOST_ROWS],
    pub count: usize,
    pub memo: [Option<u8>; SLOTS],
}

impl Written {
    // No row, and no place that is remembered.
    pub fn new() -> Written
        ensures { result ≡ nothing_written }
    {
        Written {
            words: [0; MOST_ROWS],
            count: 0,
            memo: [None; SLOTS],
        }
    }

    // The words.
    pub fn rows(&self) -> &[u32]
        requires { self.now.count ≤ length self.now.words }
        ensures { result.now ≡ take self.now.count self.now.words }
    {
        &self.words[..self.count]
    }

    // The first of the rows that is equal to this one.
    fn find(&self, word: u32) -> Option<usize>
        requires { self.now.count ≤ length self.now.words }
        ensures { result ≡ position (λ w. w == word) (take self.now.count self.now.words) }
    {
        self.rows().iter().position(|w| *w == word)
    }

    // The place of a row: that of an equal row, or a new one.
    fn share(&mut self, word: u32) -> Result<u8, TooLarge>
        requires { ShareAsks self.old word }
        ensures { SharesRow self.old word self.new result }
    {
        if let Some(at) = self.find(word) {
            return Ok(at as u8);
        }
        let at = self.count;
        if at == MOST_ROWS {
            return Err(TooLarge);
        }
        self.words[at] = word;
        self.count = at + 1;
        Ok(at as u8)
    }

    // Puts row k of the draft, or its opposite, which was not put before.
    #[cycle(put_put_new)]
    fn put_new(&mut self, draft: &[u8], k: usize, sign: bool) -> Result<u8, TooLarge>
        requires { PutAsks draft.now self.old k }
        ensures { PutGives draft.now self.old k sign self.new result }
    {
        match shape_of(draft, k, sign) {
            Shape::Literal(kind, name) => self.share(row_word(kind, 0, name, 0)),
            Shape::Other(s, l) => self.put(draft, l as usize, s),
            Shape::Unary(kind, role, s, l) => {
                let i = self.put(draft, l as usize, s)?;
                self.share(row_word(kind, role, i, 0))
            }
            Shape::Binary(kind, ls, l, rs, r) => {
                let i = self.put(draft, l as usize, ls)?;
                let j = self.put(draft, r as usize, rs)?;
                self.share(row_word(kind, 0, i, j))
            }
        }
    }

    // Puts row k of the draft, or its opposite, with all that it needs.
    #[cycle(put_put_new)]
    fn put(&mut self, draft: &[u8], k: usize, sign: bool) -> Result<u8, TooLarge>
        requires { PutAsks draft.now self.old k }
        ensures { PutGives draft.now self.old k sign self.new result }
    {
        let at = slot(k, sign);
        if let Some(place) = self.memo[at] {
            return Ok(place);
        }
        let place = self.put_new(draft, k, sign)?;
        self.memo[at] = Some(place);
        Ok(place)
    }

    // Puts the rows of a list, one after the other, and tells the place of each. After a refusal the count is as it was.
    pub fn put_list(&mut self, draft: &[u8], list: &[u8], places: &mut [u8]) -> Result<(), TooLarge>
        requires { ListAsks draft.now list.now self.old places.old }
        ensures { ListGives draft.now list.now self.old self.new places.old places.new result }
    {
        let count = self.count;
        for (i, k) in list.iter().enumerate() {
            match self.put(draft, *k as usize, true) {
                Ok(place) => places[i] = place,
                Err(TooLarge) => {
                    self.count = count;
                    return Err(TooLarge);
                }
            }
        }
        Ok(())
    }

    // Writes row k of the draft, if it is an inclusion.
    fn keep_row(&mut self, draft: &[u8], k: usize)
        requires { Kept draft.now k self.old × (k < row_count draft.now) }
        ensures { Kept draft.now (k + 1) self.new × (self.new.memo ≡ self.old.memo) }
    {
        if row_byte(draft, k, 0) == INCLUSION {
            let n = self.count;
            self.words[n] = row_word(INCLUSION, row_byte(draft, k, 1), row_byte(draft, k, 2), 0);
            self.count = n + 1;
        }
    }

    // Writes the inclusions of a draft of so many rows, in their order, and no other row. Most drafts have none. In place:
    // a `Written` that is answered is copied.
    pub fn keep_inclusions(&mut self, draft: &[u8], rows: usize)
        requires { KeepAsks draft.now rows self.old }
        ensures { KeepGives draft.now self.old self.new }
    {
        self.count = 0;
        if some_inclusion(draft) {
            for k in 0..rows {
                self.keep_row(draft, k);
            }
        }
    }
}
