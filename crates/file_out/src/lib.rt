// Inner: a case file written on a sheet, frame by frame, and how long it is. What stands before and
// after it is as found.
#![tactic(auto)]

ghost use Rattle.std.specs.Prelude.{◌≡◌, [], ◌∷◌, ◌+◌, ◌*◌, ◌≤◌, length};
ghost use Rattle.ground.specs.Limits.{count_limit, word_limit};
ghost use Rattle.ground.specs.Lists.{bit};
ghost use Rattle.net.specs.Lent.{lent};
ghost use Rattle.net.specs.Net.{Sized};
ghost use Rattle.file_digits.specs.Frame.{block, line_limit};
ghost use Rattle.file_put.specs.Append.{Appended};
ghost use Rattle.file_put.specs.Put.{twos, line_text};
ghost use Rattle.file_put.specs.Sheet.{Written};
ghost use Rattle.file_mask.specs.Mask.{mask_bytes, mask_of, eight};
ghost use Rattle.file_row.specs.Row.{is_wide};
ghost use Rattle.file_text.specs.Text.{pockets_lines, letters_lines, letters_line, row_line, joined, file_of};
ghost use Rattle.file_out.specs.Length.{line_length, numbers_length, mask_length, wide_rows, rows_length, word_length, file_length};

use file_digits::BLOCK;
use file_mask::MASK_BYTES;
use file_put::Sheet;
use file_row::BYTE_LIMIT;
use ground::{COUNT_LIMIT, WORD_LIMIT, Weight};
use net::{Net, SizedNet};

// The longest file, of the most places, transitions and letters: 01, twice the capacities or tokens, a mask,
// an 07 for each transition, two digits a letter, and a kind and a line feed for each 05.
pub const FILE_LIMIT: usize = 7
    + 2 * (4 * COUNT_LIMIT + 3)
    + (2 * MASK_BYTES + 3)
    + COUNT_LIMIT * (8 * COUNT_LIMIT + 5)
    + 2 * WORD_LIMIT
    + 3 * ((WORD_LIMIT + (BLOCK - 1)) / BLOCK);

// 01: the counts.
fn put_counts(sheet: &mut Sheet, places: usize, transitions: usize)
    requires { (sheet.old.at + line_length 3 ≤ length sheet.old.room.now) × (places ≤ count_limit) × (transitions ≤ count_limit) }
    ensures { Written sheet.old (line_text (1 ∷ places ∷ transitions ∷ [])) sheet.new }
{
    sheet.put_bytes(&[1, places as u8, transitions as u8]);
    sheet.put_feed();
}

// 02, the capacities, or 03, the tokens: a number of two bytes for each place.
#[tactic(auto, using(file_put::proofs::Twos::twos_long))]
fn put_numbers(sheet: &mut Sheet, kind: u8, list: &[u16])
    requires { sheet.old.at + numbers_length (length list.now) ≤ length sheet.old.room.now }
    ensures { Written sheet.old (line_text (kind ∷ twos list.now)) sheet.new }
{
    sheet.put_byte(kind);
    sheet.put_twos(list);
    sheet.put_feed();
}

// 06: the mask of the places that are pockets.
#[tactic(auto, using(file_mask::proofs::Masks::eight_long))]
fn put_mask(sheet: &mut Sheet, mask: u64)
    requires { sheet.old.at + line_length (1 + mask_bytes) ≤ length sheet.old.room.now }
    ensures { Written sheet.old (line_text (6 ∷ eight mask)) sheet.new }
{
    sheet.put_byte(6);
    file_mask::put_eight(sheet, mask);
    sheet.put_feed();
}

// The 06, where some place is a pocket; else nothing.
fn put_pockets(sheet: &mut Sheet, marks: &[u8])
    requires { (length marks.now ≤ count_limit) × (sheet.old.at + mask_length (mask_of marks.now) ≤ length sheet.old.room.now) }
    ensures { Written sheet.old (pockets_lines marks.now) sheet.new }
{
    let mask = file_mask::mask_of(marks);
    if mask != 0 {
        put_mask(sheet, mask);
    }
}

// 05: some letters of the word.
fn put_letters(sheet: &mut Sheet, letters: &[u8])
    requires { sheet.old.at + line_length (1 + length letters.now) ≤ length sheet.old.room.now }
    ensures { Written sheet.old (line_text (5 ∷ letters.now)) sheet.new }
{
    sheet.put_byte(5);
    sheet.put_bytes(letters);
    sheet.put_feed();
}

// A 04 or an 07 for each transition, in order from 0.
fn put_rows(sheet: &mut Sheet, sized: &SizedNet)
    requires { sheet.old.at + rows_length sized.now.net.places sized.now.net.transitions (wide_rows (lent sized.now.net)) ≤ length sheet.old.room.now }
    ensures { Written sheet.old (joined (row_line (lent sized.now.net)) sized.now.net.transitions) sheet.new }
{
    for t in 0..sized.net.transitions {
        file_row::put_row(sheet, t as u8, sized.takes(t), sized.puts(t));
    }
}

// The whole word, 64 letters a frame; none for the empty word.
fn put_word(sheet: &mut Sheet, word: &[u8])
    requires { (sheet.old.at + word_length (length word.now) ≤ length sheet.old.room.now) × (length word.now ≤ word_limit) }
    ensures { Written sheet.old (joined (letters_line word.now) (letters_lines (length word.now))) sheet.new }
{
    for letters in word.chunks(BLOCK) {
        put_letters(sheet, letters);
    }
}

// A frame of so many bytes as a line: two digits each, and a line feed.
fn line_length(bytes: usize) -> usize
    requires { 2 * bytes ≤ line_limit }
    ensures { result ≡ line_length bytes }
{
    2 * bytes + 1
}

// The frames 05 of n letters: each but the last has 64.
fn letters_lines(n: usize) -> usize
    requires { n ≤ word_limit }
    ensures { result ≡ letters_lines n }
{
    n.div_ceil(BLOCK)
}

// The word's frames: two digits a letter, and for each frame its kind and its line feed.
fn word_length(n: usize) -> usize
    requires { n ≤ word_limit }
    ensures { result ≡ word_length n }
{
    2 * n + line_length(1) * letters_lines(n)
}

// The frame 06: of a mask that is not 0.
#[tactic(auto, unfolding(crate::specs::Length::mask_length))]
fn mask_length(mask: u64) -> usize
    ensures { result ≡ mask_length mask }
{
    if mask == 0 {
        0
    } else {
        line_length(1 + MASK_BYTES)
    }
}

// 1 for rows of a transition that has an 07, else 0.
fn wide_row(takes: &[Weight], puts: &[Weight]) -> usize
    requires { (length puts.now ≡ length takes.now) × (length takes.now ≤ count_limit) }
    ensures { result ≡ bit (is_wide takes.now puts.now) }
{
    usize::from(weights::has_over(BYTE_LIMIT, takes, puts))
}

// How many transitions have an 07.
pub fn wide_rows(sized: &SizedNet) -> usize
    ensures { result ≡ wide_rows (lent sized.now.net) }
{
    let mut wide: usize = 0;
    for row in 0..sized.net.transitions {
        wide += wide_row(sized.takes(row), sized.puts(row));
    }
    wide
}

// The frames of the transitions' weights: as many as there are, and in each 07 two digits more a weight.
fn rows_length(places: usize, transitions: usize, wide: usize) -> usize
    requires { (places ≤ count_limit) × (transitions ≤ count_limit) × (wide ≤ transitions) }
    ensures { (result ≡ rows_length places transitions wide) × (result ≤ rows_length count_limit count_limit count_limit) }
{
    transitions * line_length(2 + 2 * places) + wide * (4 * places)
}

// How long the file is, of a net with so many 07 whose marks have this mask.
pub fn file_length(
    places: usize,
    transitions: usize,
    wide: usize,
    mask: u64,
    letters: usize,
) -> usize
    requires { (places ≤ count_limit) × (transitions ≤ count_limit) × (wide ≤ transitions) × (letters ≤ word_limit) }
    ensures { result ≡ file_length places transitions wide mask letters }
{
    let counts = line_length(3);
    let numbers = line_length(1 + 2 * places);
    let pockets = mask_length(mask);
    let rows = rows_length(places, transitions, wide);
    let word = word_length(letters);
    counts + 2 * numbers + pockets + rows + word
}

// The whole file where the sheet stands: 01, 02, perhaps 06, 03, the 04 or 07, and the 05.
fn put_frames(sheet: &mut Sheet, sized: &SizedNet, initial: &[u16], word: &[u8])
    requires lists { (length initial.now ≡ sized.now.net.places) × (length word.now ≤ word_limit) }
    requires room { sheet.old.at + file_length sized.now.net.places sized.now.net.transitions (wide_rows (lent sized.now.net)) (mask_of sized.now.net.marks.now) (length word.now) ≤ length sheet.old.room.now }
    ensures { Written sheet.old (file_of (lent sized.now.net) initial.now word.now) sheet.new }
{
    put_counts(sheet, sized.net.places, sized.net.transitions);
    put_numbers(sheet, 2, sized.net.caps);
    put_pockets(sheet, sized.net.marks);
    put_numbers(sheet, 3, initial);
    put_rows(sheet, sized);
    put_word(sheet, word);
}

// The whole file at the front of the room; answers its length.
pub fn put_file(sized: &SizedNet, initial: &[u16], word: &[u8], out: &mut [u8]) -> usize
    requires lists { (length initial.now ≡ sized.now.net.places) × (length word.now ≤ word_limit) }
    requires word_in_bounds { file_length sized.now.net.places sized.now.net.transitions (wide_rows (lent sized.now.net)) (mask_of sized.now.net.marks.now) (length word.now) ≤ length out.old }
    ensures { Appended out.old 0 (file_of (lent sized.now.net) initial.now word.now) result out.new }
{
    let mut sheet = Sheet { room: out, at: 0 };
    put_frames(&mut sheet, sized, initial, word);
    sheet.at
}
