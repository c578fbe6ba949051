// Inner: what every crate stands on. The limits of document 01's first table, each named here once
// (its number in the definitions is in specs/Limits.antt), and the border between a signed number
// and its two parts, which nothing else crosses.
#![tactic(auto)]

ghost use Rattle.std.specs.Prelude.{◌≡◌, ◌≤◌, ◌<◌, ◌^◌};
ghost use Rattle.std.proofs.Math.IntN.{sub_ℕ};
ghost use Rattle.ground.specs.Limits.{entry_limit};
ghost use Rattle.ground.specs.Parts.{up, dn};

// Places, and transitions, are 1 to this many.
pub const COUNT_LIMIT: usize = 64;

// A weight of an arc, as it is lent.
pub type Weight = u16;

// The largest weight of an arc.
pub const WEIGHT_LIMIT: u32 = 4095;

// The capacity that means none.
pub const NO_CAPACITY: u16 = 65535;

// The most tokens that a given marking has in a place.
pub const TOKEN_LIMIT: u16 = 65534;

// The most letters of a word.
pub const WORD_LIMIT: usize = 65535;

// The most markings of a list.
pub const LIST_LIMIT: usize = 4096;

// Entries of a weighting are lent as i16, which holds exactly what 01 allows, so that no code tests
// them; their size without the sign is `entry_limit` in the definitions.

// x where it is not negative, else 0.
pub fn up_part(x: i32) -> u32
    ensures { result ≡ up x }
{
    if x < 0 { 0 } else { x as u32 }
}

// -x where x is negative, else 0.
pub fn down_part(x: i32) -> u32
    ensures { result ≡ dn x }
{
    if x < 0 { x.unsigned_abs() } else { 0 }
}

// The difference of two numbers, signed.
pub fn less(gained: u32, lost: u32) -> i32
    requires { (gained < 2 ^ 31) × (lost < 2 ^ 31) }
    ensures { result ≡ sub_ℕ gained lost }
{
    (gained as i32) - (lost as i32)
}

// An entry of a weighting where it is not negative, else 0.
pub fn up_entry(y: i16) -> u32
    ensures { (result ≡ up y) × (result ≤ entry_limit) }
{
    up_part(i32::from(y))
}

// Minus an entry of a weighting where it is negative, else 0.
pub fn down_entry(y: i16) -> u32
    ensures { (result ≡ dn y) × (result ≤ entry_limit) }
{
    down_part(i32::from(y))
}
