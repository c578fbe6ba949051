// Inner: the net as lent, and one letter judged and fired. Whoever judges letters has capacities and marks in
// 32 bits (`wide_caps`, `wide_marks`), as the tokens are: a pass over the places then turns none of them
// anew for each letter.
#![tactic(auto)]

ghost use Rattle.std.specs.Prelude.{◌≡◌, true, false, ◌||◌, ◌+◌, ◌-◌, ◌*◌, ◌<◌, ◌≤◌, length, get_or};
ghost use Rattle.ground.specs.Limits.{count_limit, replay_limit};
ghost use Rattle.ground.specs.Lists.{bit, found};
ghost use Rattle.net.specs.Lent.{lent, arcs_in};
ghost use Rattle.net.specs.Net.{in_force, leaves_first, rise_of, Pre, Post, Sized};
ghost use Rattle.net.specs.Letter.{short_at, over_at, row, arcs_at, lowest_short, lowest_over, cause, passes, fired, fired_at, Small, Enough, Rows, Played, Widened};

use ground::{COUNT_LIMIT, NO_CAPACITY, Weight};

// A net as lent: its counts, Pre and Post (flat, transition by transition), and a capacity and a mark for
// each place. Nothing is promised of it: whether the lists fit the counts is asked (`refusals`).
#[derive(Clone, Copy)]
pub struct Lent<'a, C, M> {
    pub places: usize,
    pub transitions: usize,
    pub pre: &'a [Weight],
    pub post: &'a [Weight],
    pub caps: &'a [C],
    pub marks: &'a [M],
}

// A net as the entries are lent it.
pub type Net<'a> = Lent<'a, u16, u8>;

// A net whose capacities and marks are in 32 bits.
pub type WideNet<'a> = Lent<'a, u32, u32>;

impl<'a, C, M> Lent<'a, C, M> {
    // What a transition takes from each place.
    pub fn takes(&self, t: usize) -> &'a [Weight]
        requires { t * self.now.places + self.now.places ≤ length self.now.pre.now }
        ensures { result.now ≡ row self.now.places t self.now.pre.now }
    {
        row(self.pre, self.places, t)
    }

    // What it puts to each place.
    pub fn puts(&self, t: usize) -> &'a [Weight]
        requires { t * self.now.places + self.now.places ≤ length self.now.post.now }
        ensures { result.now ≡ row self.now.places t self.now.post.now }
    {
        row(self.post, self.places, t)
    }

    // What a transition takes from a place: Pre(p, t).
    pub fn pre_at(&self, p: usize, t: usize) -> Weight
        requires { t * self.now.places + p < length self.now.pre.now }
        ensures { result ≡ get_or self.now.pre.now (t * self.now.places + p) 0 }
    {
        self.pre[t * self.places + p]
    }

    // What it puts there: Post(p, t).
    pub fn post_at(&self, p: usize, t: usize) -> Weight
        requires { t * self.now.places + p < length self.now.post.now }
        ensures { result ≡ get_or self.now.post.now (t * self.now.places + p) 0 }
    {
        self.post[t * self.places + p]
    }
}

// A net whose counts are in range and whose lists have the lengths that they say: what the refusals 1
// and 2 are about, so that whoever is handed one has only to look at the numbers.
#[derive(Clone, Copy)]
pub struct SizedNet<'a> {
    pub net: Net<'a>,
    pub ghost sized: { Sized (lent net) },
}

impl<'a> SizedNet<'a> {
    // What a transition takes from each place.
    pub fn takes(&self, t: usize) -> &'a [Weight]
        requires { t < self.now.net.transitions }
        ensures { result.now ≡ row self.now.net.places t self.now.net.pre.now }
    {
        self.net.takes(t)
    }

    // What it puts to each place.
    pub fn puts(&self, t: usize) -> &'a [Weight]
        requires { t < self.now.net.transitions }
        ensures { result.now ≡ row self.now.net.places t self.now.net.post.now }
    {
        self.net.puts(t)
    }

    // What a transition takes from a place.
    pub fn pre_at(&self, p: usize, t: usize) -> Weight
        requires { (p < self.now.net.places) × (t < self.now.net.transitions) }
        ensures { result ≡ Pre (lent self.now.net) p t }
    {
        self.net.pre_at(p, t)
    }

    // What it puts there.
    pub fn post_at(&self, p: usize, t: usize) -> Weight
        requires { (p < self.now.net.places) × (t < self.now.net.transitions) }
        ensures { result ≡ Post (lent self.now.net) p t }
    {
        self.net.post_at(p, t)
    }
}

// A row of a table with a row for each transition.
fn row<'a>(table: &'a [Weight], places: usize, t: usize) -> &'a [Weight]
    requires { t * places + places ≤ length table.now }
    ensures { result.now ≡ row places t table.now }
{
    let a = t * places;
    let e = a + places;
    &table[a..e]
}

// Why a letter is not enabled: short of tokens, or over capacity, at a place.
#[derive(Clone, Copy)]
pub enum Cause {
    Short(usize),
    Over(usize),
}

// What one letter takes and puts at each place, with the capacities and marks.
#[derive(Clone, Copy)]
struct Arcs<'a> {
    takes: &'a [Weight],
    puts: &'a [Weight],
    caps: &'a [u32],
    marks: &'a [u32],
}

// One place has fewer tokens than are taken.
fn is_short(takes: Weight, tokens: u32) -> bool
    ensures { result ≡ short_at takes tokens }
{
    tokens < u32::from(takes)
}

// Of what is taken from a place, what leaves before anything arrives: all of it from a plain place,
// nothing from a pocket. Here and in `leaves_first` alone stands which rule a mark means.
fn leaves(mark: u32, takes: Weight) -> Weight
    ensures { result ≡ leaves_first mark takes }
{
    if mark == 0 { takes } else { 0 }
}

// The mark that counts: a pocket without capacity behaves as a plain place.
pub fn mark_in_force(cap: u16, mark: u8) -> u8
    ensures { result ≡ in_force cap mark }
{
    if cap < NO_CAPACITY { mark } else { 0 }
}

// How far a place rises above its tokens: what is put there above what leaves first, or 0.
pub fn rise(mark: u8, takes: Weight, puts: Weight) -> Weight
    ensures { result ≡ rise_of mark takes puts }
{
    let left = leaves(u32::from(mark), takes);
    if puts < left { 0 } else { puts - left }
}

// One place has a capacity and would hold more. Both sides have what leaves first added, so that
// nothing is subtracted.
fn is_over(takes: Weight, puts: Weight, cap: u32, mark: u32, tokens: u32) -> bool
    requires { tokens ≤ replay_limit }
    ensures { result ≡ over_at takes puts cap mark tokens }
{
    if cap < u32::from(NO_CAPACITY) {
        let left = leaves(mark, takes);
        return cap + u32::from(left) < tokens + u32::from(puts);
    }
    false
}

// 1 where one place stops a letter, else 0: a number, so that a pass over the places only adds.
fn stops_at(takes: Weight, puts: Weight, cap: u32, mark: u32, tokens: u32) -> u32
    requires { tokens ≤ replay_limit }
    ensures { result ≡ bit (short_at takes tokens || over_at takes puts cap mark tokens) }
{
    u32::from(is_short(takes, tokens) || is_over(takes, puts, cap, mark, tokens))
}

// One place after the letter.
fn moved(takes: Weight, puts: Weight, tokens: u32) -> u32
    requires takes_le_tokens { takes ≤ tokens }
    requires tokens_le_replay_limit { tokens ≤ replay_limit }
    ensures { result ≡ tokens + puts - takes }
{
    tokens + u32::from(puts) - u32::from(takes)
}

// Whether a letter passes: one plain pass over the places, with no way out on the way.
fn may_fire(arcs: &Arcs, marking: &[u32]) -> bool
    requires { Rows (arcs_in arcs.now) marking.now }
    ensures { result ≡ passes (arcs_in arcs.now) marking.now }
{
    let Arcs {
        takes,
        puts,
        caps,
        marks,
    } = *arcs;
    let mut stopped: u32 = 0;
    for p in 0..marking.len() {
        stopped += stops_at(takes[p], puts[p], caps[p], marks[p], marking[p]);
    }
    stopped == 0
}

// The lowest place that is short, if one is.
fn lowest_short(takes: &[Weight], marking: &[u32]) -> Option<usize>
    requires { length takes.now ≡ length marking.now }
    ensures { result ≡ found (length marking.now) (lowest_short takes.now marking.now) }
{
    for p in 0..marking.len() {
        if is_short(takes[p], marking[p]) {
            return Some(p);
        }
    }
    None
}

// The lowest place that is over, or the number of places: it is asked only where one is over.
fn lowest_over(arcs: &Arcs, marking: &[u32]) -> usize
    requires { Rows (arcs_in arcs.now) marking.now }
    ensures { result ≡ lowest_over (arcs_in arcs.now) marking.now }
{
    let Arcs {
        takes,
        puts,
        caps,
        marks,
    } = *arcs;
    for p in 0..marking.len() {
        if is_over(takes[p], puts[p], caps[p], marks[p], marking[p]) {
            return p;
        }
    }
    marking.len()
}

// Why a letter that some place stops is stopped: the lowest short place, else the lowest place over.
fn why_stopped(arcs: &Arcs, marking: &[u32]) -> Cause
    requires rows { Rows (arcs_in arcs.now) marking.now }
    requires marking_value { passes (arcs_in arcs.now) marking.now ≡ false }
    ensures { result ≡ cause (arcs_in arcs.now) marking.now }
{
    match lowest_short(arcs.takes, marking) {
        Some(p) => Cause::Short(p),
        None => Cause::Over(lowest_over(arcs, marking)),
    }
}

// Fires a letter in place.
pub fn fire(takes: &[Weight], puts: &[Weight], marking: &mut [u32])
    requires takes_len { length takes.now ≡ length marking.old }
    requires puts_len { length puts.now ≡ length marking.old }
    requires small { Small replay_limit marking.old }
    requires enough { Enough takes.now marking.old }
    ensures { marking.new ≡ fired takes.now puts.now marking.old }
{
    for p in 0..marking.len() {
        marking[p] = moved(takes[p], puts[p], marking[p]);
    }
}

// One letter by its rows: fires it in place, or says why not and leaves the marking.
fn play_rows(arcs: &Arcs, marking: &mut [u32]) -> Result<(), Cause>
    requires { Rows (arcs_in arcs.now) marking.old }
    ensures { Played (arcs_in arcs.now) marking.old result marking.new }
{
    if may_fire(arcs, marking) {
        fire(arcs.takes, arcs.puts, marking);
        return Ok(());
    }
    let why = why_stopped(arcs, marking);
    Err(why)
}

// The arcs of a transition, by its number.
fn arcs_at<'a>(net: &WideNet<'a>, t: usize) -> Arcs<'a>
    requires sized { Sized (lent net.now) }
    requires t_lt_transitions { t < net.now.transitions }
    ensures { arcs_in result ≡ arcs_at (lent net.now) t }
{
    Arcs {
        takes: net.takes(t),
        puts: net.puts(t),
        caps: net.caps,
        marks: net.marks,
    }
}

// One letter by its number.
pub fn play_letter(net: &WideNet, t: u8, marking: &mut [u32]) -> Result<(), Cause>
    requires sized { Sized (lent net.now) }
    requires marking_len { length marking.old ≡ net.now.places }
    requires small { Small replay_limit marking.old }
    requires t_lt_transitions { t < net.now.transitions }
    ensures { Played (arcs_at (lent net.now) t) marking.old result marking.new }
{
    let arcs = arcs_at(net, usize::from(t));
    play_rows(&arcs, marking)
}

// Whether a transition, by its number, may fire.
pub fn may_fire_at(net: &WideNet, t: usize, marking: &[u32]) -> bool
    requires sized { Sized (lent net.now) }
    requires marking_len { length marking.now ≡ net.now.places }
    requires small { Small replay_limit marking.now }
    requires t_lt_transitions { t < net.now.transitions }
    ensures { result ≡ passes (arcs_at (lent net.now) t) marking.now }
{
    let arcs = arcs_at(net, t);
    may_fire(&arcs, marking)
}

// Fires a transition that may fire, by its number, in place.
pub fn fire_at(net: &WideNet, t: usize, marking: &mut [u32])
    requires sized { Sized (lent net.now) }
    requires marking_len { length marking.old ≡ net.now.places }
    requires small { Small replay_limit marking.old }
    requires t_lt_transitions { t < net.now.transitions }
    requires marking_value { passes (arcs_at (lent net.now) t) marking.old ≡ true }
    ensures { marking.new ≡ fired_at (lent net.now) t marking.old }
{
    let row = arcs_at(net, t);
    fire(row.takes, row.puts, marking);
}

// A given marking into room for one that may hold more.
pub fn load(given: &[u16], room: &mut [u32])
    requires { length given.now ≡ length room.old }
    ensures { room.new ≡ given.now }
{
    for p in 0..room.len() {
        room[p] = u32::from(given[p]);
    }
}

// The capacities in 32 bits, in room for the most places that a net has.
pub fn wide_caps(caps: &[u16]) -> [u32; COUNT_LIMIT]
    requires { length caps.now ≤ count_limit }
    ensures { Widened caps.now result }
{
    let mut room = [0; COUNT_LIMIT];
    for p in 0..caps.len() {
        room[p] = u32::from(caps[p]);
    }
    room
}

// The marks in 32 bits, in such room too.
pub fn wide_marks(marks: &[u8]) -> [u32; COUNT_LIMIT]
    requires { length marks.now ≤ count_limit }
    ensures { Widened marks.now result }
{
    let mut room = [0; COUNT_LIMIT];
    for p in 0..marks.len() {
        room[p] = u32::from(marks[p]);
    }
    room
}

// The same net with capacities and marks in 32 bits, as they were copied.
pub fn widened<'a>(
    net: &'a Net<'_>,
    caps: &'a [u32; COUNT_LIMIT],
    marks: &'a [u32; COUNT_LIMIT],
) -> WideNet<'a>
    requires sized { Sized (lent net.now) }
    requires caps { Widened net.now.caps.now caps.now }
    requires marks { Widened net.now.marks.now marks.now }
    ensures { lent result ≡ lent net.now }
{
    let places = net.places;
    Lent {
        places,
        transitions: net.transitions,
        pre: net.pre,
        post: net.post,
        caps: &caps[..places],
        marks: &marks[..places],
    }
}
