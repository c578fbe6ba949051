// Inner: the mask of a frame 06, which says which places are pockets: read from a line's digits,
// judged, made into marks; and made of marks and written on a sheet.
#![tactic(auto)]

ghost use Rattle.std.specs.Prelude.{◌≡◌, ◌+◌, ◌*◌, ◌≤◌, ◌<◌, length};
ghost use Rattle.std.proofs.lemmas.List.Edits.{sets};
ghost use Rattle.ground.specs.Limits.{count_limit};
ghost use Rattle.file_put.specs.Sheet.{Spelled};
ghost use Rattle.file_mask.specs.Mask.{mask_bytes, mask_limit, bit_of, mask_of, bits_of, above_bits, mask_fits, mask_in, eight};

use file_put::Sheet;

// How many bytes a mask has.
pub const MASK_BYTES: usize = 8;

// The mask of a frame 06: the eight bytes after its kind, the high byte first.
pub fn mask_at(d: &[u8]) -> u64
    requires { 2 * (1 + mask_bytes) ≤ length d.now }
    ensures { result ≡ mask_in d.now }
{
    let mut bytes = [0; MASK_BYTES];
    file_digits::store_bytes(d, 1, &mut bytes, 0, MASK_BYTES);
    u64::from_be_bytes(bytes)
}

// What a mask has above the bits of so many places.
fn above_bits(mask: u64, places: usize) -> u64
    ensures { result ≡ above_bits mask places }
{
    if places < 64 { mask >> places } else { 0 }
}

// Whether a mask has some bit, and none at or past the number of places.
#[tactic(auto, unfolding(crate::specs::Mask::mask_fits))]
pub fn is_mask(mask: u64, places: usize) -> bool
    ensures { result ≡ mask_fits mask places }
{
    mask != 0 && above_bits(mask, places) == 0
}

// The marks of so many places at the front of the room: 1 for each place whose bit is set, else 0.
pub fn store_marks(mask: u64, marks: &mut [u8], places: usize)
    requires { places ≤ length marks.old }
    ensures { marks.new ≡ sets marks.old 0 (bits_of mask places) }
{
    let mut rest = mask;
    for p in 0..places {
        marks[p] = (rest % 2) as u8;
        rest /= 2;
    }
}

// A mark as a file has it: any mark but 0 counts as 1.
fn bit_of(mark: u8) -> u64
    ensures { result ≡ bit_of mark }
{
    u64::from(mark != 0)
}

// A mask with one more bit below it.
fn with_bit(mask: u64, bit: u64) -> u64
    requires { bit + 2 * mask < mask_limit }
    ensures { result ≡ bit + 2 * mask }
{
    bit + 2 * mask
}

// The mask of marks, place 0 the lowest bit: from the last place down.
pub fn mask_of(marks: &[u8]) -> u64
    requires { length marks.now ≤ count_limit }
    ensures { result ≡ mask_of marks.now }
{
    let mut mask = 0;
    for p in (0..marks.len()).rev() {
        mask = with_bit(mask, bit_of(marks[p]));
    }
    mask
}

// A number of eight bytes, the high byte first.
pub fn put_eight(sheet: &mut Sheet, n: u64)
    requires { sheet.old.at + 2 * mask_bytes ≤ length sheet.old.room.now }
    ensures { Spelled sheet.old (eight n) sheet.new }
{
    sheet.put_bytes(&n.to_be_bytes());
}
