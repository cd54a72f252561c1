// The bytes of a rule file (01, The rule file: "text, rows, rule list, trailer"), written from its parts into an area that is lent.
//
// In order: bytes, a word, the rows, the trailer, the file.
#![tactic(auto)]

ghost use Rattle.std.specs.Prelude.{◌≡◌, ◌+◌, ◌*◌, ◌≤◌, length};
ghost use Rattle.std.proofs.lemmas.List.Edits.{sets};
ghost use Rattle.words.specs.Words.{overwrite};
ghost use Rattle.encoder.specs.Encoder.{word_bytes, words_bytes, trailer_bytes, parts_bytes, TrailerAsks, FileAsks};

use rulefile::ROW;

// Writes some bytes from place `at` on. One by one: `copy_from_slice` needs `memmove` of whoever links the archive, and nothing else does.
fn copy(area: &mut [u8], at: usize, bytes: &[u8])
    requires { at + length bytes.now ≤ length area.old }
    ensures { area.new ≡ sets area.old at bytes.now }
{
    for (i, byte) in bytes.iter().enumerate() {
        area[at + i] = *byte;
    }
}

// Writes the four bytes of a word, low byte first.
fn put_word(area: &mut [u8], at: usize, word: u32)
    requires { at + 4 ≤ length area.old }
    ensures { area.new ≡ sets area.old at (word_bytes word) }
{
    copy(area, at, &word.to_le_bytes());
}

// Writes the rows, each a word.
fn write_rows(area: &mut [u8], at: usize, written: &[u32])
    requires { at + 4 * length written.now ≤ length area.old }
    ensures { area.new ≡ sets area.old at (words_bytes written.now) }
{
    for (i, word) in written.iter().enumerate() {
        put_word(area, at + ROW * i, *word);
    }
}

// Writes the trailer: "place of the first row (2 bytes, low byte first), number of rows, number of rules,
// number of the wanted row (1 byte each), then hexadecimal 46 49 54".
fn write_trailer(area: &mut [u8], at: usize, first: usize, count: usize, rules: usize, wanted: u8)
    requires { TrailerAsks area.old at first count rules }
    ensures { area.new ≡ sets area.old at (trailer_bytes first count rules wanted) }
{
    let [low, high] = (first as u16).to_le_bytes();
    let bytes = [
        low,
        high,
        count as u8,
        rules as u8,
        wanted,
        0x46,
        0x49,
        0x54,
    ];
    copy(area, at, &bytes);
}

// Writes a rule file, "text, rows, rule list, trailer", over the first bytes of the area.
pub fn write_file(area: &mut [u8], text: &[u8], written: &[u32], rules: &[u8], wanted: u8)
    requires { FileAsks area.old text.now written.now rules.now }
    ensures { area.new ≡ overwrite
        (parts_bytes text.now (words_bytes written.now) rules.now (length written.now) wanted)
        area.old }
{
    let first = text.len();
    let list = first + ROW * written.len();
    let trailer = list + rules.len();
    copy(area, 0, text);
    write_rows(area, first, written);
    copy(area, list, rules);
    write_trailer(area, trailer, first, written.len(), rules.len(), wanted);
}
