// Inner: orders of two logs. What an order is, which one is given, and the refusals of the logs'
// lengths stand here, below the search and the questions.
#![tactic(auto)]

ghost use Rattle.std.specs.Prelude.{◌≡◌, ◌≤◌, length, take};
ghost use Rattle.orders.specs.Orders.{count};
ghost use Rattle.orders.specs.Lengths.{long_fault};

use ground::WORD_LIMIT;
use refusals::{Refusal, refuse};

// The most letters of each of two logs.
pub const LOG_LIMIT: usize = 255;

// The most steps of an order.
pub const ORDER_LIMIT: usize = LOG_LIMIT + LOG_LIMIT;

// The letters read of one log are 0 to LOG_LIMIT: so many numbers.
pub const READ_COUNT: usize = LOG_LIMIT + 1;

// The bytes of work space: one for each number of letters read of the one log and of the other.
pub const WORK_LENGTH: usize = READ_COUNT * READ_COUNT;

// Two logs of one line, as lent: the letters that its two recorders have recorded.
#[derive(Clone, Copy)]
pub struct Logs<'a> {
    pub first: &'a [u8],
    pub second: &'a [u8],
}

// Refusals 4 and 15 for the lengths of two logs.
#[tactic(auto, unfolding(crate::specs::Lengths::long_fault))]
pub fn long_fault(first: usize, second: usize) -> Result<(), Refusal>
    ensures { result ≡ long_fault first second }
{
    refuse(WORD_LIMIT < first || WORD_LIMIT < second, 4, 0)?;
    refuse(LOG_LIMIT < first || LOG_LIMIT < second, 15, 0)
}

// How many of an order's first steps take from log `which`: so many of its letters are read by then.
pub fn read_of(order: &[u8], steps: usize, which: u8) -> usize
    requires { steps ≤ length order.now }
    ensures { result ≡ count which (take steps order.now) }
{
    let mut n: usize = 0;
    for i in 0..steps {
        if order[i] == which {
            n += 1;
        }
    }
    n
}
