// Inner: what the exports for C share: the kinds of an answer, and the struct of an answer with one
// position.
#![tactic(auto)]

pub const ANSWERED: u8 = 0x81;

pub const REFUSED: u8 = 0x82;

// What an answer with one position says.
#[repr(C)]
#[derive(Clone, Copy)]
pub struct Answer {
    pub kind: u8,
    pub number: u8,
    pub position: usize,
}
