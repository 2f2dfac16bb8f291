// The questions to an image: the step at a rank, the first step at or after a bound, and a cursor that walks the steps.
//
// Each question checks the whole image first. Then it goes along the directory to the one block that holds the answer, and reads only that
// block's part of the payload. A cursor is a rank and nothing else, so one rank of one image has one cursor.

#![tactic(auto)]

ghost use Rattle.std.specs.Prelude.{◌≡◌, ◌^◌, ◌<◌, length, get_or};
ghost use Rattle.lists.specs.Below.{below};
ghost use Rattle.image.specs.Taken.{steps_of, Taken};
ghost use Rattle.ask.specs.Inside.{Found};
ghost use Rattle.ask.specs.Rank as rank;
ghost use Rattle.ask.specs.First as first;
ghost use Rattle.ask.specs.Cursor.{next_paper, placed_paper, start_promise, next_promise, skip_promise};

use image_block::Block;
use image_directory::{Question, Spot};
use rules::Refusal;

// A step with its rank.
#[derive(Clone, Copy)]
pub struct Hit {
    pub step: u32,
    pub rank: u32,
}

// The answer to a bound.
// Kept: docs/01-scope.md, "List of forms by place", has a case with a struct of step and rank, besides nothing and refusal.
#[derive(Clone, Copy)]
pub enum First {
    Found(Hit),
    Nothing,
    Refused(Refusal),
}

// A place in an image's list of steps.
#[derive(Clone, Copy)]
pub struct Cursor {
    pub rank: u32,
}

// A step that a cursor gave, and the cursor after it.
#[derive(Clone, Copy)]
pub struct Move {
    pub step: u32,
    pub cursor: Cursor,
}

// What `next` gives: a step with the moved cursor, or the cursor that stays at the end.
#[derive(Clone, Copy)]
pub enum Next {
    Step(Move),
    End(Cursor),
}

// The block of an image that was accepted that has the answer to a question.
fn block_of(image: &[u8], q: Question) -> Option<Block<'_>>
    requires { Taken image.now }
    ensures { Found q image.now result }
{
    let Spot { before, entry } = image_directory::find(image, q)?;
    let part = image_directory::part(image, before, entry);
    Some(Block {
        part,
        before,
        entry,
    })
}

// The step at a rank of an image that was accepted.
fn step_at(image: &[u8], k: usize) -> usize
    requires { Taken image.now × (k < length (steps_of image.now)) }
    ensures { (result ≡ get_or (steps_of image.now) k 0) × (result < 2 ^ 32) }
{
    match block_of(image, Question::Rank(k)) {
        Some(block) => block.step_at(k - block.before.upto),
        None => 0,
    }
}

// How many steps of an image that was accepted stand before the first at or after x; n is how many it has.
fn below_at(image: &[u8], n: usize, x: usize) -> usize
    requires { Taken image.now × (length (steps_of image.now) ≡ n) }
    ensures { result ≡ below (steps_of image.now) x }
{
    match block_of(image, Question::Bound(x)) {
        Some(block) => block.before.upto + block.below(x),
        None => n,
    }
}

// The first step at or after x of an image that was accepted, with its rank, or nothing.
fn first_in(image: &[u8], x: usize) -> First
    requires { Taken image.now }
    ensures { first.paper_of result ≡ first.at_rank (steps_of image.now) (below (steps_of image.now) x) }
{
    match block_of(image, Question::Bound(x)) {
        Some(block) => {
            let f = block.first_at(x);
            let step = f.step as u32;
            let rank = (block.before.upto + f.index) as u32;
            First::Found(Hit { step, rank })
        }
        None => First::Nothing,
    }
}

// The step at a rank, or refusal 17.
pub fn rank(image: &[u8], k: u32) -> Result<u32, Refusal>
    ensures { rank.paper_of result ≡ rank.promised image.now k }
{
    let steps = read::check(image)?;
    if steps <= k {
        return Err(rules::refuse(rules::RANK_TOO_LARGE, steps));
    }
    Ok(step_at(image, k as usize) as u32)
}

// The first step at or after x with its rank, or nothing.
pub fn first_at(image: &[u8], x: u32) -> First
    ensures { first.paper_of result ≡ first.promised image.now x }
{
    match read::check(image) {
        Ok(_) => first_in(image, x as usize),
        Err(r) => First::Refused(r),
    }
}

// A cursor at rank 0.
pub fn start(image: &[u8]) -> Result<Cursor, Refusal>
    ensures { placed_paper result ≡ start_promise image.now }
{
    read::check(image)?;
    Ok(Cursor { rank: 0 })
}

impl Cursor {
    // The step at the cursor's rank, with the cursor one rank on; at the end nothing, and the cursor stays.
    pub fn next(self, image: &[u8]) -> Result<Next, Refusal>
        ensures { next_paper result ≡ next_promise self.rank image.now }
    {
        let steps = read::check(image)?;
        let k = self.rank;
        if steps < k {
            return Err(rules::refuse(rules::NO_SUCH_CURSOR, 0));
        }
        if steps == k {
            return Ok(Next::End(self));
        }
        let step = step_at(image, k as usize) as u32;
        let rank = k + 1;
        Ok(Next::Step(Move {
            step,
            cursor: Cursor { rank },
        }))
    }

    // The cursor at the first rank, not below its own, whose step is at least x, or at the end.
    pub fn skip_to(self, image: &[u8], x: u32) -> Result<Cursor, Refusal>
        ensures { placed_paper result ≡ skip_promise self.rank image.now x }
    {
        let steps = read::check(image)?;
        let k = self.rank;
        if steps < k {
            return Err(rules::refuse(rules::NO_SUCH_CURSOR, 0));
        }
        let at = below_at(image, steps as usize, x as usize) as u32;
        if at < k {
            return Ok(self);
        }
        Ok(Cursor { rank: at })
    }
}
