// Inner: the case file reader, one line at a time, over a state by value and lent rooms.
#![tactic(auto)]

ghost use Rattle.std.specs.Prelude.{◌≡◌, Ok, true, cond, ◌&&◌, ◌||◌, [], eqb, leb, ltb, ◌+◌, ◌*◌, ◌%◌, ◌<◌, ◌≤◌, length, take};
ghost use Rattle.std.proofs.lemmas.List.Edits.{sets};
ghost use Rattle.ground.specs.Limits.{count_limit, weight_limit, word_limit};
ghost use Rattle.ground.specs.Lists.{found};
ghost use Rattle.net.specs.Lent.{lent};
ghost use Rattle.net.specs.Net.{Sized};
ghost use Rattle.refusals.specs.Given.{refuse, or_else, outside, bad_token, bad_letter};
ghost use Rattle.file_digits.specs.Frame.{block, byte_at, words_from};
ghost use Rattle.file_mask.specs.Mask.{mask_bytes, bits_of, mask_fits, mask_in};
ghost use Rattle.weights.specs.Heavy.{row_over};
ghost use Rattle.file_row.specs.Row.{wide_row, is_row, is_wide, takes_in, puts_in};
ghost use Rattle.file_line.specs.Read.{rooms, fresh, blank, stands_as, phase_after, tokens_in, letters_in, word_part, rule_of, formed_kind, formed_of, hangs_loose, net_in, loose_bad, line_here, stored, advanced, line_of, rooms_of};
ghost use Rattle.file_line.specs.Walk.{Good, Large, Tables, fit_letters, asked_of, Accepted, GoodTook};

use file_digits::{BLOCK, LINE_LIMIT};
use file_mask::MASK_BYTES;
use file_row::{NARROW_ROW, WIDE_ROW};
use ground::{COUNT_LIMIT, WORD_LIMIT, Weight};
use net::{Lent, Net, SizedNet};
use refusals::{Refusal, refuse};

// The most entries of Pre, and of Post.
pub const CELL_LIMIT: usize = COUNT_LIMIT * COUNT_LIMIT;

#[derive(Clone, Copy)]
pub struct Reading {
    // the kind that must come next: 1 to 3, 4 for a transition's weights, in an 04 or an 07, 5 for letters
    // or the end, and 6 for pockets or tokens
    pub phase: u8,
    pub places: usize,
    pub transitions: usize,
    // transitions read
    pub next: usize,
    // letters read
    pub letters: usize,
    // lines read
    pub line: usize,
}

// The net that lent rooms hold at their fronts, by the counts of a state.
pub fn net_at<'a>(
    s: Reading,
    caps: &'a [u16],
    marks: &'a [u8],
    pre: &'a [Weight],
    post: &'a [Weight],
) -> Net<'a>
    requires { (Good s) × (Tables caps.now marks.now pre.now post.now) }
    ensures value { lent result ≡ net_in s (rooms caps.now marks.now [] pre.now post.now []) }
    ensures sized { 1 ≤ s.places → 1 ≤ s.transitions → Sized (lent result) }
{
    let cells = s.transitions * s.places;
    Lent {
        places: s.places,
        transitions: s.transitions,
        pre: &pre[..cells],
        post: &post[..cells],
        caps: &caps[..s.places],
        marks: &marks[..s.places],
    }
}

// Room for the largest net, its marking and the longest word: what a case file is read into.
#[derive(Drop)]
pub struct Rooms {
    pub caps: [u16; COUNT_LIMIT],
    pub marks: [u8; COUNT_LIMIT],
    pub initial: [u16; COUNT_LIMIT],
    pub pre: [Weight; CELL_LIMIT],
    pub post: [Weight; CELL_LIMIT],
    pub word: [u8; WORD_LIMIT],
}

impl Rooms {
    // Rooms with nothing in them.
    pub fn new() -> Self
        ensures { result ≡ blank }
    {
        Rooms {
            caps: [0; COUNT_LIMIT],
            marks: [0; COUNT_LIMIT],
            initial: [0; COUNT_LIMIT],
            pre: [0; CELL_LIMIT],
            post: [0; CELL_LIMIT],
            word: [0; WORD_LIMIT],
        }
    }

    // What they hold at their fronts, by the counts of a state: a net.
    pub fn net(&self, s: Reading) -> Net<'_>
        requires { Good s }
        ensures value { lent result ≡ net_in s self.now }
        ensures sized { 1 ≤ s.places → 1 ≤ s.transitions → Sized (lent result) }
    {
        net_at(s, &self.caps, &self.marks, &self.pre, &self.post)
    }

    // Its marking.
    pub fn marking(&self, s: Reading) -> &[u16]
        requires { Good s }
        ensures { result.now ≡ take s.places self.now.initial }
    {
        &self.initial[..s.places]
    }

    // A word.
    pub fn letters(&self, s: Reading) -> &[u8]
        requires { Good s }
        ensures { result.now ≡ take s.letters self.now.word }
    {
        &self.word[..s.letters]
    }
}

impl Reading {
    // The state before the first line.
    pub fn new() -> Self
        ensures { (result ≡ fresh) × (Good result) }
    {
        Reading {
            phase: 1,
            places: 0,
            transitions: 0,
            next: 0,
            letters: 0,
            line: 0,
        }
    }
}

// The digit rule: an even number of digits, 2 to 516.
#[tactic(auto, unfolding(crate::specs::Read::rule_of))]
fn rule(d: &[u8]) -> bool
    ensures { result ≡ rule_of d.now }
{
    let n = d.len();
    2 <= n && n <= LINE_LIMIT && n % 2 == 0 && file_digits::all_digits(d)
}

// A frame 04 has its length, and the index of the next transition.
fn is_narrow_row(s: Reading, d: &[u8]) -> bool
    requires { s.places ≤ count_limit }
    ensures { result ≡ (eqb (length d.now) (4 + 4 * s.places) && eqb (byte_at d.now 1) s.next) }
{
    d.len() == 4 + 4 * s.places && usize::from(file_digits::byte_at(d, 1)) == s.next
}

// So has a frame 07, and one of its weights is over what a byte holds.
fn is_wide_row(s: Reading, d: &[u8]) -> bool
    requires { s.places ≤ count_limit }
    ensures { result ≡ (eqb (length d.now) (4 + 8 * s.places)
        && (eqb (byte_at d.now 1) s.next && is_wide (takes_in wide_row d.now s.places) (puts_in wide_row d.now s.places))) }
{
    d.len() == 4 + 8 * s.places
        && usize::from(file_digits::byte_at(d, 1)) == s.next
        && file_row::is_wide(d, s.places)
}

// A frame 05 comes after full ones only, and has 1 to 64 letters.
fn is_block(letters: usize, len: usize) -> bool
    ensures { result ≡ (eqb (letters % block) 0 && (leb 4 len && leb len (2 + 2 * block))) }
{
    letters % BLOCK == 0 && 4 <= len && len <= 2 + 2 * BLOCK
}

// An 07 stands where an 04 may, and any other frame where its own kind says.
fn stands_as(kind: u8) -> u8
    ensures { result ≡ stands_as kind }
{
    if kind == WIDE_ROW { NARROW_ROW } else { kind }
}

// Whether a line of this kind may come next: the one that the state says, and 03 where a 06 may.
fn is_expected(phase: u8, kind: u8) -> bool
    ensures { result ≡ (eqb (stands_as kind) phase || (eqb phase 6 && eqb kind 3)) }
{
    stands_as(kind) == phase || phase == 6 && kind == 3
}

// A frame 06 has its length, some bit, and none at or past the number of places.
fn is_pockets(d: &[u8], places: usize) -> bool
    ensures { result ≡ (eqb (length d.now) (2 + 2 * mask_bytes) && mask_fits (mask_in d.now) places) }
{
    d.len() == 2 + 2 * MASK_BYTES && file_mask::is_mask(file_mask::mask_at(d), places)
}

// Whether a frame of this kind has its length, with its index, its mask and its weights.
#[tactic(auto, unfolding(crate::specs::Read::formed_kind))]
fn is_shaped(kind: u8, s: Reading, d: &[u8]) -> bool
    requires { s.places ≤ count_limit }
    ensures { result ≡ formed_kind kind s d.now }
{
    let len = d.len();
    match kind {
        1 => len == 6,
        2 => len == 2 + 4 * s.places,
        3 => len == 2 + 4 * s.places,
        4 => is_narrow_row(s, d),
        5 => is_block(s.letters, len),
        6 => is_pockets(d, s.places),
        7 => is_wide_row(s, d),
        _ => false,
    }
}

// Whether a line is a frame of a kind that may come next, with what such a frame has.
#[tactic(auto, unfolding(crate::specs::Read::formed_of))]
fn is_formed(s: Reading, d: &[u8]) -> bool
    requires { (Good s) × (2 ≤ length d.now) }
    ensures { result ≡ formed_of s d.now }
{
    let kind = file_digits::byte_at(d, 0);
    is_expected(s.phase, kind) && is_shaped(kind, s, d)
}

// A count of places or of transitions is out of range.
fn are_outside(places: usize, transitions: usize) -> bool
    ensures { result ≡ (outside places || outside transitions) }
{
    refusals::is_outside(places) || refusals::is_outside(transitions)
}

// The counts of a frame 01 are in range.
fn counts_fault(d: &[u8], here: usize) -> Result<(), Refusal>
    requires { length d.now ≡ 6 }
    ensures { result ≡ refuse (outside (byte_at d.now 1) || outside (byte_at d.now 2)) 1 here }
{
    let places = usize::from(file_digits::byte_at(d, 1));
    let transitions = usize::from(file_digits::byte_at(d, 2));
    refuse(are_outside(places, transitions), 1, here)
}

// No weight of a frame 07 is over what is allowed.
fn weights_fault(s: Reading, d: &[u8], here: usize) -> Result<(), Refusal>
    requires { (s.places ≤ count_limit) × (length d.now ≡ 4 + 8 * s.places) }
    ensures { result ≡ refuse (row_over weight_limit (takes_in wide_row d.now s.places) (puts_in wide_row d.now s.places)) 18 here }
{
    refuse(file_row::is_heavy(d, s.places), 18, here)
}

// The lowest place to which a frame 03 gives more tokens than allowed, if there is one.
fn bad_token(d: &[u8], caps: &[u16], places: usize) -> Option<usize>
    requires { (2 + 4 * places ≤ length d.now) × (places ≤ length caps.now) }
    ensures { result ≡ found places (bad_token caps.now (words_from d.now 1 places)) }
{
    for p in 0..places {
        let tokens = file_digits::word_at(d, 1 + 2 * p);
        if refusals::is_bad_token(caps[p], tokens) {
            return Some(p);
        }
    }
    None
}

// The tokens of a frame 03 are allowed.
fn tokens_fault(s: Reading, d: &[u8], caps: &[u16], here: usize) -> Result<(), Refusal>
    requires { (s.places ≤ count_limit) × (length d.now ≡ 2 + 4 * s.places) × (count_limit ≤ length caps.now) }
    ensures { result ≡ refuse (ltb (bad_token caps.now (tokens_in s d.now)) (length (tokens_in s d.now))) 3 here }
{
    refuse(bad_token(d, caps, s.places).is_some(), 3, here)
}

// One letter more: whether those before it name transitions, and it does too.
fn keeps(fine: bool, t: u8, transitions: usize) -> bool
    ensures { result ≡ (fine && ltb t transitions) }
{
    fine && usize::from(t) < transitions
}

// Whether each letter names a transition: one plain pass, with no way out on the way, since a branch
// for each digit costs more than the rest of the line.
fn fit_letters(d: &[u8], count: usize, transitions: usize) -> bool
    requires { 2 + 2 * count ≤ length d.now }
    ensures { result ≡ fit_letters d.now 1 count transitions }
{
    let mut fine = true;
    for k in 0..count {
        fine = keeps(fine, file_digits::byte_at(d, 1 + k), transitions);
    }
    fine
}

// The word with the letters of a frame 05 is not too long, and each letter names a transition.
fn letters_fault(s: Reading, d: &[u8], here: usize) -> Result<(), Refusal>
    requires { (s.letters ≤ word_limit) × (2 ≤ length d.now) }
    ensures { result ≡ or_else (refuse (ltb word_limit (s.letters + letters_in d.now)) 4 here)
        (refuse (ltb (bad_letter s.transitions (word_part d.now)) (length (word_part d.now))) 5 here) }
{
    let count = d.len() / 2 - 1;
    refuse(WORD_LIMIT < s.letters + count, 4, here)?;
    refuse(!fit_letters(d, count, s.transitions), 5, here)
}

// The refusal of a line before it is stored, or none. Of the rooms read so far only the capacities are
// looked at.
fn judge(s: Reading, d: &[u8], caps: &[u16]) -> Result<(), Refusal>
    requires { (Good s) × (count_limit ≤ length caps.now) }
    ensures { result ≡ asked_of s d.now (rooms caps.now [] [] [] [] []) }
{
    let here = s.line + 1;
    refuse(!rule(d), 11, here)?;
    refuse(!is_formed(s, d), 12, here)?;
    let kind = file_digits::byte_at(d, 0);
    match kind {
        1 => counts_fault(d, here),
        3 => tokens_fault(s, d, caps, here),
        5 => letters_fault(s, d, here),
        7 => weights_fault(s, d, here),
        _ => Ok(()),
    }
}

// The capacities, with which all places are plain until a 06 says otherwise.
fn store_caps(d: &[u8], caps: &mut [u16], marks: &mut [u8], places: usize)
    requires { (2 + 4 * places ≤ length d.now) × (places ≤ length caps.old) × (places ≤ length marks.old) }
    ensures caps { caps.new ≡ sets caps.old 0 (words_from d.now 1 places) }
    ensures marks { marks.new ≡ sets marks.old 0 (bits_of 0 places) }
{
    file_digits::store_words(d, 1, caps, places);
    file_mask::store_marks(0, marks, places);
}

// The stores of an accepted line.
#[tactic(auto, unfolding(crate::specs::Read::stored_kind))]
fn store(
    s: Reading,
    d: &[u8],
    caps: &mut [u16],
    marks: &mut [u8],
    initial: &mut [u16],
    pre: &mut [Weight],
    post: &mut [Weight],
    word: &mut [u8],
)
    requires { (Good s) × (Accepted s d.now) × (Large (rooms caps.old marks.old initial.old pre.old post.old word.old)) }
    ensures { rooms caps.new marks.new initial.new pre.new post.new word.new
        ≡ stored s d.now (rooms caps.old marks.old initial.old pre.old post.old word.old) }
{
    let kind = file_digits::byte_at(d, 0);
    let p = s.places;
    match kind {
        2 => store_caps(d, caps, marks, p),
        3 => file_digits::store_words(d, 1, initial, p),
        4 | 7 => {
            let row = s.next * p;
            file_row::store_row(kind, d, pre, post, row, p);
        }
        5 => file_digits::store_bytes(d, 1, word, s.letters, d.len() / 2 - 1),
        6 => file_mask::store_marks(file_mask::mask_at(d), marks, p),
        _ => {}
    }
}

// After the last row come letters.
fn last_row(next: usize, transitions: usize) -> u8
    ensures { result ≡ cond (eqb next transitions) 5 4 }
{
    if next == transitions { 5 } else { 4 }
}

// The kind that must come after a line of this kind.
fn phase_after(kind: u8, s: Reading) -> u8
    requires { (kind ≤ 7) × (s.next ≤ count_limit) }
    ensures { result ≡ phase_after kind s }
{
    match kind {
        2 => 6,
        4 | 7 => last_row(s.next + 1, s.transitions),
        5 => 5,
        6 => 3,
        _ => kind + 1,
    }
}

// The state after an accepted line.
#[tactic(auto, unfolding(crate::specs::Read::advanced_kind))]
fn advance(s: Reading, d: &[u8]) -> Reading
    requires { (Good s) × (Accepted s d.now) }
    ensures value { result ≡ advanced s d.now }
    ensures good { Good result }
{
    let kind = file_digits::byte_at(d, 0);
    let phase = phase_after(kind, s);
    let line = s.line + 1;
    match kind {
        1 => Reading {
            phase,
            places: usize::from(file_digits::byte_at(d, 1)),
            transitions: usize::from(file_digits::byte_at(d, 2)),
            next: 0,
            letters: 0,
            line,
        },
        4 | 7 => Reading {
            phase,
            next: s.next + 1,
            letters: 0,
            line,
            ..s
        },
        5 => Reading {
            phase,
            letters: s.letters + (d.len() / 2 - 1),
            line,
            ..s
        },
        _ => Reading {
            phase,
            next: 0,
            letters: 0,
            line,
            ..s
        },
    }
}

// Whether some place or transition of a net has no arc.
#[tactic(auto, unfolding(crate::specs::Read::hangs_loose))]
fn is_loose(net: &Net) -> bool
    requires { Sized (lent net.now) }
    ensures { result ≡ hangs_loose (lent net.now) }
{
    refusals::loose_fault(&SizedNet { net: *net }).is_err()
}

// Whether a line of this kind is that of the last transition, by which the whole net has been read.
fn is_last_row(kind: u8, next: usize, transitions: usize) -> bool
    requires { next ≤ count_limit }
    ensures { result ≡ (is_row kind && eqb (next + 1) transitions) }
{
    file_row::is_row(kind) && next + 1 == transitions
}

// Whether a line that is stored is refused: the net that the rooms hold now is asked on the line of the
// last transition.
fn is_net_loose(
    s: Reading,
    d: &[u8],
    caps: &[u16],
    marks: &[u8],
    pre: &[Weight],
    post: &[Weight],
) -> bool
    requires { (Good s) × (Accepted s d.now) × (Tables caps.now marks.now pre.now post.now) }
    ensures { result ≡ loose_bad s d.now (rooms caps.now marks.now [] pre.now post.now []) }
{
    let kind = file_digits::byte_at(d, 0);
    is_last_row(kind, s.next, s.transitions) && is_loose(&net_at(s, caps, marks, pre, post))
}

// What a line comes to that is stored: the next state, or 17. It is asked of the rooms themselves, which
// are the reader's own.
fn take_line(
    s: Reading,
    d: &[u8],
    caps: &[u16],
    marks: &[u8],
    pre: &[Weight],
    post: &[Weight],
) -> Result<Reading, Refusal>
    requires { (Good s) × (Accepted s d.now) × (Tables caps.now marks.now pre.now post.now) }
    ensures value { result ≡ or_else (refuse (loose_bad s d.now (rooms caps.now marks.now [] pre.now post.now [])) 17 (line_here s)) (Ok (advanced s d.now)) }
    ensures good { GoodTook result }
{
    refuse(is_net_loose(s, d, caps, marks, pre, post), 17, s.line + 1)?;
    Ok(advance(s, d))
}

// One line: the next state, or a refusal, which leaves the rooms as found unless it is 17.
pub fn read_line(
    s: Reading,
    d: &[u8],
    caps: &mut [u16],
    marks: &mut [u8],
    initial: &mut [u16],
    pre: &mut [Weight],
    post: &mut [Weight],
    word: &mut [u8],
) -> Result<Reading, Refusal>
    requires { (Good s) × (Large (rooms caps.old marks.old initial.old pre.old post.old word.old)) }
    ensures value { result ≡ line_of s d.now (rooms caps.old marks.old initial.old pre.old post.old word.old) }
    ensures lent { rooms caps.new marks.new initial.new pre.new post.new word.new
        ≡ rooms_of s d.now (rooms caps.old marks.old initial.old pre.old post.old word.old) }
    ensures good { GoodTook result }
{
    judge(s, d, caps)?;
    store(s, d, caps, marks, initial, pre, post, word);
    take_line(s, d, caps, marks, pre, post)
}
