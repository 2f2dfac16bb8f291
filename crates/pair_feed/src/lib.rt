// The next steps of an accepted image, read ahead into a small lent buffer, for who takes them one after the other: reading many at once costs
// less than moving a walk for each. Most steps of a thin list stand in codes of one byte or two: these are read two at a time, in a loop of
// their own that tests only for what is rare. All else goes step by step, as any walk goes.

#![tactic(auto)]

ghost use Rattle.std.specs.Prelude.{◌≡◌, List, ◌∷◌, ℕ, ◌≤◌, ◌<◌, length, get_or};
ghost use Rattle.lists.specs.Stores.{Brief};
ghost use Rattle.rules.specs.Limits.{no_step};
ghost use Rattle.image.specs.Taken.{steps_of};
ghost use Rattle.image_walk.specs.Walk.{ahead, Stands};
ghost use Rattle.pair_feed.specs.Feed.{Fed};
ghost use Rattle.pair_feed.specs.Inside.Growth.{Grown, among_codes};

use image_walk::{Accepted, Source, Walk};

// The next steps of an image, in a buffer: the numbers of the buffer from `at` to before `end`, and the walk at the step after them. Where no
// step is left, the numbers are one past the largest step, which is above every step, so that who merges need not ask for the end at every
// step.
#[derive(Clone, Copy)]
pub struct Feed {
    pub walk: Walk,
    pub at: usize,
    pub end: usize,
}

// The bytes of two codes of at most two bytes each. Free: measured; `run` is written for two codes a turn.
const PAIR_BYTES: usize = 4;

// The feed that shows the numbers to before `k`, where its walk has come to a step and a place among the codes of the open block.
fn among(f: Feed, step: usize, at: usize, k: usize) -> Feed
    ensures { result ≡ among_codes f step at k }
{
    Feed {
        walk: image_walk::coded(step, at, f.walk.end, f.walk.block),
        at: f.at,
        end: k,
    }
}

// Stores the steps of a walk among codes, two at a time, as long as codes of one byte or two follow and there is room.
#[tactic(auto, using(crate::proofs::Coding::run_within))]
fn run<'a>(f: Feed, steps: &mut [u32], source: Source<'a>) -> Feed
    requires stands { Stands source.image.now source.payload.now f.walk × ((f.walk.bits ≡ 0) × (f.walk.at < f.walk.end)) }
    requires steps_nonzero { (0 < length steps.old) × ((f.end ≤ length steps.old) × Brief steps.old) }
    ensures { Grown source.entry.image.now source.entry.payload.now f steps.old result steps.new }
{
    let payload = source.payload;
    let end = f.walk.end;
    if end < PAIR_BYTES {
        return f;
    }
    let upto = end - PAIR_BYTES;
    let most = steps.len() - 1;
    let mut step = f.walk.step;
    let mut at = f.walk.at;
    let mut k = f.end;
    while k < most {
        if upto < at {
            return among(f, step, at, k);
        }
        let x = code::short(payload[at], payload[at + 1]);
        let next = at + 1 + x.extra;
        let y = code::short(payload[next], payload[next + 1]);
        let between = step + 1 + x.value;
        if x.more + y.more != 0 {
            if x.more != 0 {
                return among(f, step, at, k);
            }
            steps[k] = step as u32;
            return among(f, between, next, k + 1);
        }
        steps[k] = step as u32;
        steps[k + 1] = between as u32;
        step = between + 1 + y.value;
        at = next + 1 + y.extra;
        k += 2;
    }
    among(f, step, at, k)
}

// The walk at the step of the code that it stands before.
fn past_code<'a>(w: Walk, source: Source<'a>) -> Walk
    requires { Stands source.image.now source.payload.now w × ((w.bits ≡ 0) × (w.at < w.end)) }
    ensures { Stands source.entry.image.now source.entry.payload.now result
        × (ahead source.entry.image.now source.entry.payload.now w ≡ w.step ∷ ahead source.entry.image.now source.entry.payload.now result) }
{
    let payload = source.payload;
    let at = w.at;
    let end = w.end;
    match code::read(&payload[at..end], 0) {
        Ok(c) => image_walk::coded(w.step + 1 + (c.value as usize), at + c.next, end, w.block),
        Err(_) => w,
    }
}

// The walk at the next step. Where it stands among codes, a run ended there, so that the code is a long one, or the last.
fn past<'a>(w: Walk, source: Source<'a>) -> Walk
    requires { Stands source.image.now source.payload.now w × (w.step < no_step) }
    ensures { Stands source.entry.image.now source.entry.payload.now result
        × (ahead source.entry.image.now source.entry.payload.now w ≡ w.step ∷ ahead source.entry.image.now source.entry.payload.now result) }
{
    if w.bits == 0 {
        if w.at < w.end {
            return past_code(w, source);
        }
    }
    w.next(source)
}

// Stores the walk's step, and the steps of the short codes that follow it.
fn on<'a>(f: Feed, steps: &mut [u32], source: Source<'a>) -> Feed
    requires stands { Stands source.image.now source.payload.now f.walk × (f.walk.step < no_step) }
    requires end_in_bounds { (f.end < length steps.old) × Brief steps.old }
    ensures { Grown source.entry.image.now source.entry.payload.now f steps.old result steps.new × (f.end < result.end) }
{
    let k = f.end;
    let v = f.walk;
    steps[k] = v.step as u32;
    let w = past(v, source);
    let g = Feed {
        walk: w,
        at: f.at,
        end: k + 1,
    };
    if w.bits != 0 {
        return g;
    }
    if w.end <= w.at {
        return g;
    }
    run(g, steps, source)
}

// Fills the buffer with one past the largest step.
#[tactic(auto, using(rules::specs::Limits::Laws::largest_coded))]
fn fill_with_none(steps: &mut [u32])
    requires { Brief steps.old }
    ensures { (i : ℕ) → i < length steps.new → get_or steps.new i 0 ≡ no_step }
{
    steps.fill(rules::no_step() as u32);
}

// Reads the steps ahead of a walk into the buffer from its front on.
fn refill<'a>(w: Walk, steps: &mut [u32], source: Source<'a>) -> Feed
    requires stands { Stands source.image.now source.payload.now w }
    requires steps_nonzero { (0 < length steps.old) × Brief steps.old }
    ensures { Fed source.entry.image.now source.entry.payload.now result steps.new (ahead source.entry.image.now source.entry.payload.now w)
        × (result.at < result.end) }
{
    let none = rules::no_step();
    let count = steps.len();
    if none <= w.step {
        fill_with_none(steps);
        return Feed {
            walk: w,
            at: 0,
            end: count,
        };
    }
    let start = Feed {
        walk: w,
        at: 0,
        end: 0,
    };
    let mut f = on(start, steps, source);
    while f.end < count {
        if none <= f.walk.step {
            return f;
        }
        f = on(f, steps, source);
    }
    f
}

// A feed of the steps of an accepted image, from the first on.
pub fn first<'a>(steps: &mut [u32], accepted: Accepted<'a>) -> Feed
    requires { (0 < length steps.old) × Brief steps.old }
    ensures { Fed accepted.entry.source.image.now accepted.entry.source.payload.now result steps.new (steps_of accepted.entry.source.image.now)
        × (result.at < result.end) }
{
    refill(image_walk::first(accepted), steps, accepted.source)
}

// A feed that shows at least one number: the same, or read anew where all was taken.
pub fn more<'a>(f: Feed, steps: &mut [u32], source: Source<'a>) -> Feed
    requires stands { Stands source.image.now source.payload.now f.walk × ((f.at ≤ f.end) × (f.end ≤ length steps.old)) }
    requires steps_nonzero { (0 < length steps.old) × Brief steps.old }
    ensures { ((xs : List ℕ) → Fed source.entry.image.now source.entry.payload.now f steps.old xs
        → Fed source.entry.image.now source.entry.payload.now result steps.new xs) × (result.at < result.end) }
{
    if f.at < f.end {
        return f;
    }
    refill(f.walk, steps, source)
}
