// Inner: bytes and numbers as digits, and the line feed, written on a sheet one after another.
#![tactic(auto)]

ghost use Rattle.std.specs.Prelude.{◌≡◌, [], ◌∷◌, ◌+◌, ◌*◌, ◌<◌, ◌≤◌, length};
ghost use Rattle.file_digits.specs.Frame.{line_feed};
ghost use Rattle.file_put.specs.Put.{digit_of, two, twos, four};
ghost use Rattle.file_put.specs.Sheet.{Spelled, Written};

// A room that is written on from its front to its end, and the position of the next byte.
#[derive(Drop)]
pub struct Sheet<'a> {
    pub room: &'a mut [u8],
    pub at: usize,
}

// The digit of a value.
pub fn digit(n: u8) -> u8
    requires { n < 16 }
    ensures { result ≡ digit_of n }
{
    match n {
        0..=9 => n + b'0',
        _ => n - 10 + b'A',
    }
}

impl<'a> Sheet<'a> {
    // A byte, as its two digits.
    pub fn put_byte(&mut self, b: u8)
        requires { self.old.at + 2 ≤ length self.old.room.now }
        ensures { Spelled self.old (b ∷ []) self.new }
    {
        self.room[self.at] = digit(b / 16);
        self.room[self.at + 1] = digit(b % 16);
        self.at += 2;
    }

    // Bytes one after another.
    pub fn put_bytes(&mut self, bytes: &[u8])
        requires { self.old.at + 2 * length bytes.now ≤ length self.old.room.now }
        ensures { Spelled self.old bytes.now self.new }
    {
        for b in bytes {
            self.put_byte(*b);
        }
    }

    // A number of two bytes, the high byte first.
    #[tactic(auto, using(crate::proofs::Puts::high_byte), unfolding(crate::specs::Put::two))]
    pub fn put_two(&mut self, n: u16)
        requires { self.old.at + 4 ≤ length self.old.room.now }
        ensures { Spelled self.old (two n) self.new }
    {
        self.put_bytes(&n.to_be_bytes());
    }

    // Such numbers one after another.
    pub fn put_twos(&mut self, numbers: &[u16])
        requires { self.old.at + 4 * length numbers.now ≤ length self.old.room.now }
        ensures { Spelled self.old (twos numbers.now) self.new }
    {
        for n in numbers {
            self.put_two(*n);
        }
    }

    // A number of four bytes, the high byte first.
    #[tactic(auto, unfolding(crate::specs::Put::four))]
    pub fn put_four(&mut self, n: usize)
        requires { self.old.at + 8 ≤ length self.old.room.now }
        ensures { Spelled self.old (four n) self.new }
    {
        self.put_bytes(&n.to_be_bytes()[4..]);
    }

    // The line feed after the bytes.
    pub fn put_feed(&mut self)
        requires { self.old.at + 1 ≤ length self.old.room.now }
        ensures { Written self.old (line_feed ∷ []) self.new }
    {
        self.room[self.at] = b'\n';
        self.at += 1;
    }
}
