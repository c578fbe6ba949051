// Inner: the digits of a line, and the bytes and numbers that they spell. The limits of a line and of
// a frame of letters are named here once (their numbers in the definitions are in specs/Frame.antt).
#![tactic(auto)]

ghost use Rattle.std.specs.Prelude.{◌≡◌, ◌+◌, ◌*◌, ◌<◌, ◌≤◌, length};
ghost use Rattle.std.proofs.lemmas.List.Edits.{sets};
ghost use Rattle.file_digits.specs.Frame.{value_of, is_digit, all_digits, byte_at, word_at, bytes_from, words_from};

// The most digits of a line.
pub const LINE_LIMIT: usize = 516;

// The letters of a full frame 05.
pub const BLOCK: usize = 64;

// The value of a digit, and 0 for any other byte.
#[tactic(auto, unfolding(crate::specs::Frame::value_of))]
pub fn value(b: u8) -> u8
    ensures value { result ≡ value_of b }
    ensures most { result ≤ 15 }
{
    match b {
        b'0'..=b'9' => b - b'0',
        b'A'..=b'F' => b - b'A' + 10,
        _ => 0,
    }
}

// Whether a byte is one of 0-9 and A-F.
#[tactic(auto, unfolding(crate::specs::Frame::is_digit))]
pub fn is_digit(b: u8) -> bool
    ensures { result ≡ is_digit b }
{
    matches!(b, b'0'..=b'9' | b'A'..=b'F')
}

// Whether every byte is a digit.
#[tactic(auto, unfolding(crate::specs::Frame::all_digits))]
pub fn all_digits(d: &[u8]) -> bool
    ensures { result ≡ all_digits d.now }
{
    d.iter().all(|b| is_digit(*b))
}

// Byte i of the frame that the digits d spell.
#[tactic(auto, unfolding(crate::specs::Frame::byte_at))]
pub fn byte_at(d: &[u8], i: usize) -> u8
    requires { 2 * i + 1 < length d.now }
    ensures { result ≡ byte_at d.now i }
{
    let high = value(d[2 * i]);
    let low = value(d[2 * i + 1]);
    high * 16 + low
}

// The number of two bytes from byte i on, the high byte first.
pub fn word_at(d: &[u8], i: usize) -> u16
    requires { 2 * i + 3 < length d.now }
    ensures { result ≡ word_at d.now i }
{
    u16::from_be_bytes([byte_at(d, i), byte_at(d, i + 1)])
}

// Bytes of the frame, count of them from number from on, into the room at number at.
#[tactic(auto, using(crate::proofs::Bytes::bytes_next), unfolding(crate::specs::Frame::bytes_from))]
pub fn store_bytes(d: &[u8], from: usize, room: &mut [u8], at: usize, count: usize)
    requires { (2 * (from + count) ≤ length d.now) × (at + count ≤ length room.old) }
    ensures { room.new ≡ sets room.old at (bytes_from d.now from count) }
{
    for k in 0..count {
        room[at + k] = byte_at(d, from + k);
    }
}

// Numbers of two bytes, count of them from byte from on, to the front of the room.
#[tactic(auto, using(crate::proofs::Bytes::words_next), unfolding(crate::specs::Frame::words_from))]
pub fn store_words(d: &[u8], from: usize, room: &mut [u16], count: usize)
    requires { (2 * (from + 2 * count) ≤ length d.now) × (count ≤ length room.old) }
    ensures { room.new ≡ sets room.old 0 (words_from d.now from count) }
{
    for k in 0..count {
        room[k] = word_at(d, from + 2 * k);
    }
}
