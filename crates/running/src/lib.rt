// Running replay: a log that comes in parts is played part by part, on a state that is lent and changed in
// place. The state may be kept anywhere between two parts, in a file too, and may hold anything when it is lent.
#![tactic(auto)]

ghost use Rattle.std.specs.Prelude.{Ok, ◌≡◌, ◌+◌, ◌≤◌, length, take, ◌&&◌, leb};
ghost use Rattle.std.proofs.lemmas.List.Edits.{sets};
ghost use Rattle.ground.specs.Limits.{count_limit, word_limit, tokens_after};
ghost use Rattle.ground.specs.Lists.{found};
ghost use Rattle.net.specs.Lent.{lent};
ghost use Rattle.net.specs.Firing.{cause_number};
ghost use Rattle.net.specs.Net.{Sized, Light};
ghost use Rattle.net.specs.Letter.{Small};
ghost use Rattle.refusals.specs.Given.{or_else, loose_fault, Letters};
ghost use Rattle.plays.specs.Replay.{play_from};
ghost use Rattle.plays.specs.declared.Replay.TheVariants.{Blocked};
ghost use Rattle.running.specs.State.{tokens_over, bad_tokens, tokens_fault, state_fault, letters_fault, block_fault, part_fault, is_blocked, cause_place, blocked_at, went_on, played_on, held_block, fed_of};
ghost use Rattle.running.specs.Entry.{fresh_at, start_of};
ghost use Rattle.running.specs.Walk.{Brief};

use ground::{COUNT_LIMIT, NO_CAPACITY, TOKEN_LIMIT, WEIGHT_LIMIT, WORD_LIMIT};
use net::{Cause, Net, SizedNet};
use plays::Replay;
use refusals::Refusal;

// A replay that goes on.
#[repr(C)]
#[derive(Clone, Copy)]
pub struct Running {
    // tokens of each place; what stands past the net's places is not read and stays
    pub marking: [u32; COUNT_LIMIT],
    // letters fired since the first part
    pub fired: u32,
    // a block's letter, counted from the first part, and its place
    pub position: u32,
    pub place: u32,
    // 0 while nothing blocks; else 1 short of tokens, 2 over capacity
    pub blocked: u8,
}

// The answer to a part: fired so far, with the letters since the first part; or blocked, with the
// cause's number, the letter's position since the first part and the place. The cause is the number
// that the state holds, since a lent state may hold any.
#[derive(Clone, Copy)]
pub enum Part {
    Fired(usize),
    Blocked(u8, usize, usize),
}

// A state and an answer.
#[derive(Clone, Copy)]
pub struct Fed {
    pub state: Running,
    pub answer: Result<Part, Refusal>,
}

// More tokens than so many letters can have led to, or than the capacity.
fn is_over(fired: u32, cap: u16, tokens: u32) -> bool
    ensures { result ≡ tokens_over fired cap tokens }
{
    let most = u64::from(TOKEN_LIMIT) + u64::from(WEIGHT_LIMIT) * u64::from(fired);
    most < u64::from(tokens) || cap < NO_CAPACITY && u32::from(cap) < tokens
}

// The lowest place with more tokens than it can have, if there is one.
fn bad_tokens(sized: &SizedNet, state: &Running) -> Option<usize>
    ensures { result ≡ found sized.now.net.places (bad_tokens sized.now.net.places sized.now.net.caps.now state.now.fired state.now.marking) }
{
    for p in 0..sized.net.places {
        if is_over(state.fired, sized.net.caps[p], state.marking[p]) {
            return Some(p);
        }
    }
    None
}

// Refusal 3 for the tokens of a state.
fn tokens_fault(sized: &SizedNet, state: &Running) -> Result<(), Refusal>
    ensures { result ≡ tokens_fault sized.now.net.places sized.now.net.caps.now state.now.fired state.now.marking }
{
    refusals::refuse_found(bad_tokens(sized, state), 3)
}

// Refusals 3 and 17 of a net whose counts, lengths and weights are right.
fn held_fault(sized: &SizedNet, state: &Running) -> Result<(), Refusal>
    ensures { result ≡ or_else (tokens_fault sized.now.net.places sized.now.net.caps.now state.now.fired state.now.marking) (loose_fault (lent sized.now.net)) }
{
    tokens_fault(sized, state)?;
    refusals::loose_fault(sized)
}

// What is wrong with the net and the tokens of a state.
fn state_fault(net: &Net, state: &Running) -> Result<(), Refusal>
    ensures { result ≡ state_fault (lent net.now) state.now.fired state.now.marking }
{
    refusals::counts_fault(net, true)?;
    held_fault(&SizedNet { net: *net }, state)
}

// Refusals 4 and 5: the letters fired count too, blocked or not.
fn letters_fault(transitions: usize, fired: u32, part: &[u8]) -> Result<(), Refusal>
    ensures { result ≡ letters_fault transitions fired part.now }
{
    refusals::refuse(WORD_LIMIT < fired as usize + part.len(), 4, 0)?;
    refusals::word_fault(transitions, part)
}

// Whether a held block's place is no place of the net.
fn is_misplaced(places: usize, blocked: u8, place: u32) -> bool
    ensures { result ≡ (is_blocked blocked && leb places place) }
{
    blocked != 0 && places <= place as usize
}

// Refusal 13 for a held block.
fn block_fault(places: usize, blocked: u8, place: u32) -> Result<(), Refusal>
    ensures { result ≡ block_fault places blocked place }
{
    refusals::refuse(is_misplaced(places, blocked, place), 13, 0)
}

// Refusals 4, 5 and 13.
fn rest_fault(net: &Net, state: &Running, part: &[u8]) -> Result<(), Refusal>
    ensures { result ≡ or_else (letters_fault net.now.transitions state.now.fired part.now) (block_fault net.now.places state.now.blocked state.now.place) }
{
    letters_fault(net.transitions, state.fired, part)?;
    block_fault(net.places, state.blocked, state.place)
}

// All refusals of a part.
fn part_fault(net: &Net, state: &Running, part: &[u8]) -> Result<(), Refusal>
    ensures { result ≡ part_fault (lent net.now) state.now part.now }
{
    state_fault(net, state)?;
    rest_fault(net, state, part)
}

// A part played at the front of a state's marking; what stands past the net's places stays.
fn play_front(sized: &SizedNet, fired: usize, part: &[u8], marking: &mut [u32]) -> Replay
    requires light { Light (lent sized.now.net) }
    requires count_limit_in_bounds { (count_limit ≤ length marking.old) × (Small (tokens_after fired) (take sized.now.net.places marking.old)) }
    requires letters { (Letters sized.now.net.transitions part.now) × (fired + length part.now ≤ word_limit) }
    ensures { (result ≡ (play_from (lent sized.now.net) fired (take sized.now.net.places marking.old) part.now).answer)
        × (marking.new ≡ sets marking.old 0 (play_from (lent sized.now.net) fired (take sized.now.net.places marking.old) part.now).left) }
{
    let places = sized.net.places;
    plays::play_word(sized, fired, part, &mut marking[..places])
}

// The number that stands for a cause, and its place.
fn told(why: Cause) -> (u8, usize)
    ensures { result ≡ (cause_number why, cause_place why) }
{
    match why {
        Cause::Short(place) => (1, place),
        Cause::Over(place) => (2, place),
    }
}

// The state with a block, and the answer that says it.
fn of_block(marking: [u32; COUNT_LIMIT], at: usize, why: Cause) -> Fed
    requires { Brief (Blocked at why) }
    ensures { result ≡ blocked_at marking at why }
{
    let (blocked, place) = told(why);
    Fed {
        state: Running {
            marking,
            fired: at as u32,
            position: at as u32,
            place: place as u32,
            blocked,
        },
        answer: Ok(Part::Blocked(blocked, at, place)),
    }
}

// The state after a part that was played, and the answer.
fn went_on(state: Running, marking: [u32; COUNT_LIMIT], ran: Replay) -> Fed
    requires { Brief ran }
    ensures { result ≡ went_on state marking ran }
{
    match ran {
        Replay::Fired(n) => Fed {
            state: Running {
                marking,
                fired: n as u32,
                ..state
            },
            answer: Ok(Part::Fired(n)),
        },
        Replay::Blocked(at, why) => of_block(marking, at, why),
    }
}

// A part that is not refused, played on a state.
fn play_on(net: &Net, state: Running, part: &[u8]) -> Fed
    requires { part_fault (lent net.now) state part.now ≡ Ok tt }
    ensures { result ≡ played_on (lent net.now) state part.now }
{
    let sized = SizedNet { net: *net };
    let mut marking = state.marking;
    let ran = play_front(&sized, state.fired as usize, part, &mut marking);
    went_on(state, marking, ran)
}

// The block that a state holds, handed back as it stands.
fn held_block(state: Running) -> Fed
    ensures { result ≡ held_block state }
{
    Fed {
        state,
        answer: Ok(Part::Blocked(state.blocked, state.position as usize, state.place as usize)),
    }
}

// A part, on a state by value: what `replay_part` does.
pub fn run_part(net: &Net, state: Running, part: &[u8]) -> Fed
    ensures { result ≡ fed_of (lent net.now) state part.now }
{
    if let Err(why) = part_fault(net, &state, part) {
        return Fed {
            state,
            answer: Err(why),
        };
    }
    if state.blocked == 0 {
        play_on(net, state, part)
    } else {
        held_block(state)
    }
}

// A part of a log: the state is changed in place. A refusal, and a part after a block, change nothing.
pub fn replay_part(net: &Net, state: &mut Running, part: &[u8]) -> Result<Part, Refusal>
    ensures { (state.new ≡ (fed_of (lent net.now) state.old part.now).state) × (result ≡ (fed_of (lent net.now) state.old part.now).answer) }
{
    let out = run_part(net, *state, part);
    *state = out.state;
    out.answer
}

// A state with this marking, before the first letter.
fn fresh(marking: [u32; COUNT_LIMIT]) -> Running
    ensures { result ≡ fresh_at marking }
{
    Running {
        marking,
        fired: 0,
        position: 0,
        place: 0,
        blocked: 0,
    }
}

// The initial marking at the front of a state's.
fn load_front(initial: &[u16], marking: &mut [u32])
    requires { length initial.now ≤ length marking.old }
    ensures { marking.new ≡ sets marking.old 0 initial.now }
{
    let places = initial.len();
    net::load(initial, &mut marking[..places]);
}

// The state before the first part. A refusal comes with a state of nothing.
pub fn start_replay(net: &Net, initial: &[u16]) -> Fed
    ensures { result ≡ start_of (lent net.now) initial.now }
{
    let mut marking = [0; COUNT_LIMIT];
    if let Err(why) = refusals::marked_fault(net, initial, true) {
        return Fed {
            state: fresh(marking),
            answer: Err(why),
        };
    }
    load_front(initial, &mut marking);
    Fed {
        state: fresh(marking),
        answer: Ok(Part::Fired(0)),
    }
}
