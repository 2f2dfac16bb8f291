// A block of codes: for each step the code of (step − step before it − 1). Checking it, reading its steps, the step at an index, and where a
// bound falls. Each goes by the promise of the byte code alone: code by code, where many codes cannot be passed at once.

#![tactic(auto)]

ghost use Rattle.std.specs.Prelude.{List, ℕ, ◌≡◌, ◌+◌, ◌*◌, ◌^◌, ◌≤◌, ◌<◌, length, get_or};
ghost use Rattle.lists.specs.Below.{below};
ghost use Rattle.lists.specs.Bytes.{Bytes};
ghost use Rattle.lists.specs.Stores.{Puts};
ghost use Rattle.code.specs.Code.{code_values};
ghost use Rattle.codes.specs.Codes.{steps_from, tally_of, list_of, Sound};
ghost use Rattle.codes.specs.Inside.Turn.{Turn};
ghost use Rattle.std.specs.Iterator.{YieldsFirst, item_count};

use code::Flaw;
use std::marker::Model;

// What a block has whose codes are all good: so many steps, and one past the last of them.
#[derive(Clone, Copy)]
pub struct Tally {
    pub count: usize,
    pub next: usize,
}

// Why a block is refused, and where: the first code that fails.
#[derive(Clone, Copy, Debug, PartialEq, Eq)]
pub struct Wrong {
    pub flaw: Flaw,
    pub at: usize,
}

// A step of a block with its index there.
#[derive(Clone, Copy)]
pub struct Indexed {
    pub step: usize,
    pub index: usize,
}

// Checks the codes of a block from a place on, one by one, after `count` steps that end before `from`.
fn check_from(part: &[u8], start: usize, count: usize, from: usize) -> Result<Tally, Wrong>
    requires { (start ≤ length part.now)
        × ((length part.now < 2 ^ 32) × ((count ≤ start) × (from ≤ 2 ^ 32 + start * code_values))) }
    ensures { result ≡ tally_of count from (steps_from from part.now start) }
{
    // Kept: how many there are is part of the answer, and a code that fails has to say why and where, which `StepsLeft` never does.
    // Kept: `match`, since with `map_err` and `?` each value is put together from its lowest byte and the rest, which shares a place with the flaw.
    let mut at = start;
    let mut found = count;
    let mut next = from;
    while at < part.len() {
        match code::read(part, at) {
            Ok(c) => {
                next = next + (c.value as usize) + 1;
                found += 1;
                at = c.next;
            }
            Err(flaw) => return Err(Wrong { flaw, at }),
        }
    }
    Ok(Tally { count: found, next })
}

// Checks a block whose first step is at least `from`: many codes at once, as long as nothing is wrong and bytes are left.
pub fn check(part: &[u8], from: usize) -> Result<Tally, Wrong>
    requires { (from < 2 ^ 32) × (length part.now < 2 ^ 32) }
    ensures { result ≡ tally_of 0 from (steps_from from part.now 0) }
{
    let mut at: usize = 0;
    let mut count: usize = 0;
    let mut next = from;
    while let Some(t) = code_stretch::pass(part, at) {
        count += t.count;
        next += t.value + t.count;
        at = t.after;
    }
    check_from(part, at, count, next)
}

// A step that a code stands for, and the place after the code.
#[derive(Clone, Copy)]
struct Coded {
    step: usize,
    after: usize,
}

// Reads the code at a place of a block that was checked, where the step is at least `next`.
// Kept: no code fails there, which `?` or `unwrap` would say; but with a way out of the loop for it, reading back codes of two bytes took up to
// 1.3 times as long at half of the places in memory.
fn next_step(part: &[u8], at: usize, next: usize) -> Coded
    requires { Sound next (steps_from next part.now at) × (at < length part.now) }
    ensures { Turn next part.now at result.step result.after }
{
    match code::read(part, at) {
        Ok(c) => Coded {
            step: next + (c.value as usize),
            after: c.next,
        },
        Err(_) => Coded {
            step: next,
            after: at,
        },
    }
}

// The steps of a block that was checked, from the code at `at` on, where the step is at least `next`.
#[derive(Drop)]
struct StepsLeft<'a> {
    part: &'a [u8],
    at: usize,
    next: usize,
}

// A value is seen as the list of the steps that are left.
impl<'a> Model for StepsLeft<'a> {
    ghost Value = { List ℕ };

    ghost view = { λ s. list_of (steps_from s.next s.part.now s.at) };

    ghost invariant = { λ s. (s.at ≤ length s.part.now) × (Bytes s.part.now × Sound s.next (steps_from s.next s.part.now s.at)) };
}

impl<'a> StepsLeft<'a> {
    fn new(part: &'a [u8], at: usize, next: usize) -> StepsLeft<'a>
        requires { (at ≤ length part.now) × Sound next (steps_from next part.now at) }
        ensures { result ≡ list_of (steps_from next part.now at) }
    {
        StepsLeft { part, at, next }
    }
}

impl<'a> Iterator for StepsLeft<'a> {
    type Item = u32;

    ghost next_gives = { YieldsFirst (λ s. s) };

    ghost remaining = { item_count (λ s. s) };

    fn next(&mut self) -> Option<u32> {
        if self.part.len() <= self.at {
            return None;
        }
        let c = next_step(self.part, self.at, self.next);
        self.at = c.after;
        self.next = c.step + 1;
        Some(c.step as u32)
    }
}

// Puts the steps of a block that was checked into a buffer from a place on, and gives the place after them.
pub fn steps(part: &[u8], from: usize, out: &mut [u32], at: usize) -> usize
    requires { Sound from (steps_from from part.now 0) × (at + length (list_of (steps_from from part.now 0)) ≤ length out.old) }
    ensures { Puts out.old at (list_of (steps_from from part.now 0)) out.new result }
{
    // Kept: the place after the steps is the answer, so that it is counted even where `enumerate` gives each place.
    let mut k = at;
    for step in StepsLeft::new(part, 0, from) {
        out[k] = step;
        k += 1;
    }
    k
}

// The step at an index among those of a block that was checked from a place on, code by code.
fn step_from(part: &[u8], start: usize, from: usize, k: usize) -> usize
    requires { (start ≤ length part.now)
        × (Sound from (steps_from from part.now start) × (k < length (list_of (steps_from from part.now start)))) }
    ensures { result ≡ get_or (list_of (steps_from from part.now start)) k 0 }
{
    let mut left = StepsLeft::new(part, start, from);
    left.nth(k).unwrap_or(0) as usize
}

// The step at an index of a block that was checked: many codes are passed at once, as long as the index is not among them.
pub fn step_at(part: &[u8], from: usize, k: usize) -> usize
    requires { Sound from (steps_from from part.now 0) × (k < length (list_of (steps_from from part.now 0))) }
    ensures { result ≡ get_or (list_of (steps_from from part.now 0)) k 0 }
{
    let mut at: usize = 0;
    let mut next = from;
    let mut left = k;
    while let Some(t) = code_stretch::pass(part, at) {
        if left < t.count {
            break;
        }
        left -= t.count;
        next += t.value + t.count;
        at = t.after;
    }
    step_from(part, at, next, left)
}

// The first step at or after x of a block that was checked, from a place on, with its index after `passed` steps; where there is none, 0
// and the number of steps. It goes code by code.
fn first_from(part: &[u8], start: usize, from: usize, passed: usize, x: usize) -> Indexed
    requires { (start ≤ length part.now) × (Sound from (steps_from from part.now start) × (passed ≤ start)) }
    ensures { (result.index ≡ passed + below (list_of (steps_from from part.now start)) x)
        × (result.step ≡ get_or (list_of (steps_from from part.now start)) (below (list_of (steps_from from part.now start)) x) 0) }
{
    // Kept: where every step is below x their number is the answer, so that it is counted even where `enumerate` gives each index.
    let mut index = passed;
    for step in StepsLeft::new(part, start, from) {
        if x <= step as usize {
            return Indexed {
                step: step as usize,
                index,
            };
        }
        index += 1;
    }
    Indexed { step: 0, index }
}

// The first step of a block that was checked at or after x, with its index; where there is none, 0 and the number of steps. Many codes are
// passed at once, as long as all their steps are below x.
pub fn first_in(part: &[u8], from: usize, x: usize) -> Indexed
    requires { Sound from (steps_from from part.now 0) }
    ensures { (result.index ≡ below (list_of (steps_from from part.now 0)) x)
        × (result.step ≡ get_or (list_of (steps_from from part.now 0)) result.index 0) }
{
    let mut at: usize = 0;
    let mut next = from;
    let mut index: usize = 0;
    while let Some(t) = code_stretch::pass(part, at) {
        let beyond = next + (t.value + t.count);
        if x < beyond {
            break;
        }
        index += t.count;
        next = beyond;
        at = t.after;
    }
    first_from(part, at, next, index, x)
}

// How many steps of a block that was checked stand before the first at or after x.
pub fn below_in(part: &[u8], from: usize, x: usize) -> usize
    requires { Sound from (steps_from from part.now 0) }
    ensures { result ≡ below (list_of (steps_from from part.now 0)) x }
{
    first_in(part, from, x).index
}
