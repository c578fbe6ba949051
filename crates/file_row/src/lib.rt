// Inner: a transition's weights in a case file: a byte each in a frame 04, two bytes each in a frame 07. Read
// from a line's digits, and written on a sheet.
#![tactic(auto)]

ghost use Rattle.std.specs.Prelude.{◌≡◌, [], ◌∷◌, ◌+◌, ◌*◌, ◌≤◌, length};
ghost use Rattle.std.proofs.lemmas.List.Edits.{sets};
ghost use Rattle.ground.specs.Limits.{count_limit, weight_limit};
ghost use Rattle.weights.specs.Heavy.{row_over};
ghost use Rattle.file_digits.specs.Frame.{bytes_from, words_from};
ghost use Rattle.file_put.specs.Put.{line_text};
ghost use Rattle.file_put.specs.Sheet.{Spelled, Written};
ghost use Rattle.std.specs.List.{All};
ghost use Rattle.file_row.specs.Row.{byte_limit, wide_row, is_row, weight_bytes, is_wide, row_kind, weights_text, row_frame, weights_from, takes_in, puts_in};
ghost use Rattle.file_row.specs.Walk.{weight_at, Fit};

use file_put::Sheet;
use ground::{WEIGHT_LIMIT, Weight};

// The largest weight of a frame 04.
pub const BYTE_LIMIT: u32 = 255;

// The kinds of the two frames.
pub const NARROW_ROW: u8 = 4;

pub const WIDE_ROW: u8 = 7;

// Whether a frame of this kind has a transition's weights.
pub fn is_row(kind: u8) -> bool
    ensures { result ≡ is_row kind }
{
    kind == NARROW_ROW || kind == WIDE_ROW
}

// How many bytes a weight has in a frame of this kind.
fn weight_bytes(kind: u8) -> usize
    ensures { result ≡ weight_bytes kind }
{
    if kind == WIDE_ROW { 2 } else { 1 }
}

// Whether an 07 of so many places has a weight over a limit: one plain pass over its digits, with no
// way out on the way.
fn digits_over(limit: u32, d: &[u8], places: usize) -> bool
    requires { (places ≤ count_limit) × (length d.now ≡ 4 + 8 * places) }
    ensures { result ≡ row_over limit (takes_in wide_row d.now places) (puts_in wide_row d.now places) }
{
    let mut over: u32 = 0;
    for p in 0..places {
        let takes = file_digits::word_at(d, 2 + 2 * p);
        let puts = file_digits::word_at(d, 2 + 2 * places + 2 * p);
        over += weights::over_at(limit, takes, puts);
    }
    0 < over
}

// Whether one of its weights is over 255, without which it is no frame.
pub fn is_wide(d: &[u8], places: usize) -> bool
    requires { (places ≤ count_limit) × (length d.now ≡ 4 + 8 * places) }
    ensures { result ≡ is_wide (takes_in wide_row d.now places) (puts_in wide_row d.now places) }
{
    digits_over(BYTE_LIMIT, d, places)
}

// Whether one of its weights is over what is allowed.
pub fn is_heavy(d: &[u8], places: usize) -> bool
    requires { (places ≤ count_limit) × (length d.now ≡ 4 + 8 * places) }
    ensures { result ≡ row_over weight_limit (takes_in wide_row d.now places) (puts_in wide_row d.now places) }
{
    digits_over(WEIGHT_LIMIT, d, places)
}

// Weights of a byte each, count of them from byte from on, into the room at number at. Nothing in the loop asks for
// the kind of the frame, so that many weights are stored in one step.
#[tactic(auto, using(file_digits::proofs::Bytes::bytes_next), unfolding(file_digits::specs::Frame::bytes_from))]
fn store_narrow(d: &[u8], from: usize, room: &mut [Weight], at: usize, count: usize)
    requires { (2 * (from + count) ≤ length d.now) × (at + count ≤ length room.old) }
    ensures { room.new ≡ sets room.old at (bytes_from d.now from count) }
{
    for k in 0..count {
        room[at + k] = Weight::from(file_digits::byte_at(d, from + k));
    }
}

// Weights of two bytes each.
#[tactic(auto, using(crate::proofs::Weights::wide_next), unfolding(file_digits::specs::Frame::words_from))]
fn store_wide(d: &[u8], from: usize, room: &mut [Weight], at: usize, count: usize)
    requires { (2 * (from + 2 * count) ≤ length d.now) × (at + count ≤ length room.old) }
    ensures { room.new ≡ sets room.old at (words_from d.now from count) }
{
    for k in 0..count {
        room[at + k] = file_digits::word_at(d, from + 2 * k);
    }
}

// Weights of a frame, count of them from byte from on, into the room at number at.
#[tactic(auto, unfolding(crate::specs::Row::weights_from))]
fn store_weights(kind: u8, d: &[u8], from: usize, room: &mut [Weight], at: usize, count: usize)
    requires { (2 * (from + weight_bytes kind * count) ≤ length d.now) × (at + count ≤ length room.old) }
    ensures { room.new ≡ sets room.old at (weights_from kind d.now from count) }
{
    if kind == WIDE_ROW {
        store_wide(d, from, room, at, count);
    } else {
        store_narrow(d, from, room, at, count);
    }
}

// Both rows of a frame, each into its table at number at.
pub fn store_row(
    kind: u8,
    d: &[u8],
    pre: &mut [Weight],
    post: &mut [Weight],
    at: usize,
    places: usize,
)
    requires { (length d.now ≡ 4 + 4 * (weight_bytes kind * places)) × (places ≤ count_limit) × (at + places ≤ length pre.old) × (at + places ≤ length post.old) }
    ensures pre { pre.new ≡ sets pre.old at (takes_in kind d.now places) }
    ensures post { post.new ≡ sets post.old at (puts_in kind d.now places) }
{
    let bytes = weight_bytes(kind);
    store_weights(kind, d, 2, pre, at, places);
    store_weights(kind, d, 2 + bytes * places, post, at, places);
}

// Weights that fit a byte, a byte each.
fn put_narrow(sheet: &mut Sheet, list: &[Weight])
    requires { (sheet.old.at + 2 * length list.now ≤ length sheet.old.room.now) × (All (λ w. w ≤ byte_limit) list.now) }
    ensures { Spelled sheet.old list.now sheet.new }
{
    for weight in list {
        sheet.put_byte(*weight as u8);
    }
}

// A row of Pre or of Post.
#[tactic(auto, unfolding(crate::specs::Row::weights_text))]
fn put_weights(sheet: &mut Sheet, kind: u8, list: &[Weight])
    requires { (sheet.old.at + 2 * (weight_bytes kind * length list.now) ≤ length sheet.old.room.now) × (Fit kind list.now) }
    ensures { Spelled sheet.old (weights_text kind list.now) sheet.new }
{
    if kind == WIDE_ROW {
        sheet.put_twos(list);
    } else {
        put_narrow(sheet, list);
    }
}

// The kind of the frame for these rows.
#[tactic(auto, unfolding(crate::specs::Row::row_kind))]
fn row_kind(takes: &[Weight], puts: &[Weight]) -> u8
    requires { (length puts.now ≡ length takes.now) × (length takes.now ≤ count_limit) }
    ensures { result ≡ row_kind takes.now puts.now }
{
    if weights::has_over(BYTE_LIMIT, takes, puts) {
        WIDE_ROW
    } else {
        NARROW_ROW
    }
}

// The frame of transition t with what it takes from each place and what it puts there: an 07 exactly
// when one of the weights is over 255.
pub fn put_row(sheet: &mut Sheet, t: u8, takes: &[Weight], puts: &[Weight])
    requires { (sheet.old.at + (2 * (2 + 2 * (weight_bytes (row_kind takes.now puts.now) * length takes.now)) + 1) ≤ length sheet.old.room.now) × (length puts.now ≡ length takes.now) × (length takes.now ≤ count_limit) }
    ensures { Written sheet.old (line_text (row_frame t takes.now puts.now)) sheet.new }
{
    let kind = row_kind(takes, puts);
    sheet.put_bytes(&[kind, t]);
    put_weights(sheet, kind, takes);
    put_weights(sheet, kind, puts);
    sheet.put_feed();
}
