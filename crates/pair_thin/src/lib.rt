// The result of an operation on two images, counted or stored step by step: the next steps of each image are read into a buffer, and the two
// buffers are merged, one step a turn, without a branch on which side comes first. This is the way for lists whose steps are thin; it keeps
// no list but the two buffers.

#![tactic(auto)]

ghost use Rattle.std.specs.Prelude.{◌≡◌, ◌++◌, ◌+◌, ◌≤◌, ◌<◌, length, drop};
ghost use Rattle.std.proofs.lemmas.List.Edits.{sets};
ghost use Rattle.lists.specs.Stores.{Brief};
ghost use Rattle.rules.specs.Limits.{no_step};
ghost use Rattle.image.specs.Taken.{steps_of, Taken};
ghost use Rattle.pair_operation.specs.Result.{result_of};
ghost use Rattle.pair_thin.specs.Inside.Shown.{Merges};
ghost use Rattle.pair_thin.specs.Inside.Round.{Small, Ready, to_come, Goes};
ghost use Rattle.pair_thin.specs.Counts.{Counts};

use image_walk::{Accepted, Source};
use pair_feed::Feed;
use pair_operation::Operation;

// The numbers of a buffer. Free: measured; no proof depends on it.
const BATCH: usize = 256;

// How many numbers some turns of a merge took of each side, and how many steps they kept.
#[derive(Clone, Copy)]
struct Progress {
    left: usize,
    right: usize,
    kept: usize,
}

// The two sides of a merge: the feed of each, the lower of the numbers that the two show first, and how many steps the last round kept.
#[derive(Clone, Copy)]
struct Sides {
    left: Feed,
    right: Feed,
    next: usize,
    kept: usize,
}

// Merges two runs of numbers for as many turns as the shorter has. A turn takes the lower of the two that come next, or both where they are
// the same, and stores it where the next kept step goes: it stays there if the operation keeps it. The numbers after those are read before the
// test, so that no turn waits for them, and widened, since some compilers make a jump of a choice that has a number in memory on one side.
fn turns<'a>(op: Operation, left: &'a [u32], right: &'a [u32], kept: &mut [u32]) -> Progress
    requires { (0 < length left.now) × ((0 < length right.now) × ((length left.now ≤ length kept.old) × Brief left.now)) }
    ensures { Merges op left.now right.now result kept.new }
{
    let n = left.len().min(right.len());
    let mut x = left[0] as usize;
    let mut y = right[0] as usize;
    let mut i: usize = 0;
    let mut j: usize = 0;
    let mut k: usize = 0;
    for _ in 1..n {
        let after_x = left[i + 1] as usize;
        let after_y = right[j + 1] as usize;
        let in_left = x <= y;
        let in_right = y <= x;
        kept[k] = x.min(y) as u32;
        k += usize::from(pair_operation::keeps(op, in_left, in_right));
        i += usize::from(in_left);
        j += usize::from(in_right);
        x = if in_left { after_x } else { x };
        y = if in_right { after_y } else { y };
    }
    let in_left = x <= y;
    let in_right = y <= x;
    kept[k] = x.min(y) as u32;
    k += usize::from(pair_operation::keeps(op, in_left, in_right));
    Progress {
        left: i + usize::from(in_left),
        right: j + usize::from(in_right),
        kept: k,
    }
}

// A feed of which so many numbers were taken.
fn passed(f: Feed, taken: usize) -> Feed
    requires { f.at + taken ≤ f.end }
    ensures { result ≡ record { walk = f.walk; at = f.at + taken; end = f.end } }
{
    let walk = f.walk;
    Feed {
        walk,
        at: f.at + taken,
        end: f.end,
    }
}

// The two sides before the first turn.
fn start<'a>(
    left: &mut [u32],
    right: &mut [u32],
    first: Accepted<'a>,
    second: Accepted<'a>,
) -> Sides
    requires { Small left.old × Small right.old }
    ensures { Ready first.entry.source.image.now first.entry.source.payload.now second.entry.source.image.now second.entry.source.payload.now result left.new right.new
        × ((to_come first.entry.source.image.now first.entry.source.payload.now result.left left.new ≡ steps_of first.entry.source.image.now)
        × (to_come second.entry.source.image.now second.entry.source.payload.now result.right right.new ≡ steps_of second.entry.source.image.now)) }
{
    let a = pair_feed::first(left, first);
    let b = pair_feed::first(right, second);
    let i = a.at;
    let j = b.at;
    Sides {
        left: a,
        right: b,
        next: left[i].min(right[j]) as usize,
        kept: 0,
    }
}

// The two sides after so many turns as both show numbers for, with what these keep in front of `kept`.
fn round<'a>(
    op: Operation,
    m: Sides,
    left: &mut [u32],
    right: &mut [u32],
    kept: &mut [u32],
    first: Source<'a>,
    second: Source<'a>,
) -> Sides
    requires ready { Ready first.image.now first.payload.now second.image.now second.payload.now m left.old right.old × (m.next < no_step) }
    requires small { (Small left.old × Small right.old) × (length left.old ≤ length kept.old) }
    ensures { Goes op first.entry.image.now first.entry.payload.now second.entry.image.now second.entry.payload.now m left.old
        right.old result left.new right.new kept.new }
{
    let x = m.left;
    let y = m.right;
    let at = x.at;
    let end = x.end;
    let from = y.at;
    let upto = y.end;
    let t = turns(op, &left[at..end], &right[from..upto], kept);
    let a = pair_feed::more(passed(x, t.left), left, first);
    let b = pair_feed::more(passed(y, t.right), right, second);
    let i = a.at;
    let j = b.at;
    Sides {
        left: a,
        right: b,
        next: left[i].min(right[j]) as usize,
        kept: t.kept,
    }
}

// Stores numbers from a place on where there is room for all of them, and else none.
pub fn put<'a>(numbers: &'a [u32], steps: &mut [u32], at: usize)
    ensures { at + length numbers.now ≤ length steps.old
        → steps.new ≡ sets steps.old at numbers.now }
{
    if steps.len() < at {
        return;
    }
    if steps.len() - at < numbers.len() {
        return;
    }
    // Kept: a loop, since `copy_from_slice` made counting what both have 9 % slower.
    for (i, number) in numbers.iter().enumerate() {
        steps[at + i] = *number;
    }
}

// Counts the steps of the result, and stores them where there is room, by the buffers of both sides and one for what a round keeps.
fn store_with<'a>(
    op: Operation,
    first: Accepted<'a>,
    second: Accepted<'a>,
    steps: &mut [u32],
    left: &mut [u32],
    right: &mut [u32],
    kept: &mut [u32],
) -> usize
    requires { (Small left.old × Small right.old) × (length left.old ≤ length kept.old) }
    ensures { Counts op first.entry.source.image.now second.entry.source.image.now steps.old result steps.new }
{
    let end = rules::no_step();
    let mut m = start(left, right, first, second);
    let mut n: usize = 0;
    while m.next < end {
        m = round(op, m, left, right, kept, first.source, second.source);
        let k = m.kept;
        put(&kept[..k], steps, n);
        n += k;
    }
    n
}

// How many steps the result has. They are stored in front of `steps` where it has room for all of them; else what then stands there is loose.
pub fn count<'a>(op: Operation, first: &'a [u8], second: &'a [u8], steps: &mut [u32]) -> usize
    requires { Taken first.now × Taken second.now }
    ensures { Counts op first.now second.now steps.old result steps.new }
{
    let mut left: [u32; BATCH] = [0; BATCH];
    let mut right: [u32; BATCH] = [0; BATCH];
    let mut kept: [u32; BATCH] = [0; BATCH];
    let first = Accepted::new(first);
    let second = Accepted::new(second);
    store_with(op, first, second, steps, &mut left, &mut right, &mut kept)
}

// Stores the steps of the result, and gives their number.
pub fn store<'a>(op: Operation, first: &'a [u8], second: &'a [u8], steps: &mut [u32]) -> usize
    requires taken { Taken first.now × Taken second.now }
    requires second_in_bounds { length (result_of op (steps_of first.now) (steps_of second.now)) ≤ length steps.old }
    ensures { (result ≡ length (result_of op (steps_of first.now) (steps_of second.now)))
        × (steps.new ≡ result_of op (steps_of first.now) (steps_of second.now)
        ++ drop (length (result_of op (steps_of first.now) (steps_of second.now))) steps.old) }
{
    count(op, first, second, steps)
}
