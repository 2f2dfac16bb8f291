// Both, either and first-without-second of two images. The result is counted and stored window by window; where steps are thin, and a window
// would be nearly empty, the two are merged step by step instead. Neither way copies a list. It is counted first, so that its length is known
// before anything is stored, and a refusal changes nothing; then its steps are stored, and written as any list is. A merge that counts keeps a
// short result, so that storing it is a copy.

#![tactic(auto)]

ghost use Rattle.std.specs.Prelude.{◌≡◌, ◌++◌, ◌+◌, ◌≤◌, ◌<◌, length, drop};
ghost use Rattle.rules.specs.Refusals.{on_side};
ghost use Rattle.image.specs.Taken.{steps_of, Taken};
ghost use Rattle.pair_operation.specs.declared.Operation.TheVariants.{Both, Either, Without};
ghost use Rattle.pair_operation.specs.Result.{result_of};
ghost use Rattle.pair.specs.Promise.{Promise};
ghost use Rattle.pair.specs.Inside.Room.{Ready, Held};

use pair_operation::Operation;
use rules::Refusal;
use write::Counted;

// Document 01: the sides of a pair.
const FIRST_SIDE: u32 = 1;

const SECOND_SIDE: u32 = 2;

// With more places to a step than this, it is faster to merge than to go by windows: in counting, and in storing what an operation keeps.
// Free: measured; no proof depends on them but that they are above 0.
const THIN_TO_COUNT: usize = 40;

const THIN_FOR_BOTH: usize = 64;

const THIN_FOR_EITHER: usize = 12;

const THIN_FOR_WITHOUT: usize = 24;

// The numbers of the buffer in which a merge that counts keeps its result. Free: measured; no proof depends on it.
const FEW: usize = 2048;

// The last step of an accepted image, and 0 where it has none.
fn last_step(image: &[u8]) -> usize
    requires { Taken image.now }
{
    let blocks = rules::number_at(image, 0);
    if blocks == 0 {
        return 0;
    }
    let e = image_directory::entry(image, blocks - 1);
    e.last
}

// Whether two accepted images of `all` steps together have more than so many places to a step.
fn thin<'a>(places: usize, all: usize, first: &'a [u8], second: &'a [u8]) -> bool
    requires { (0 < places) × (Taken first.now × Taken second.now) }
{
    let x = last_step(first);
    let y = last_step(second);
    if x < y {
        return all < y / places;
    }
    all < x / places
}

// How many places to a step are too many to store what an operation keeps by windows.
fn thin_for(op: Operation) -> usize
    ensures { 0 < result }
{
    match op {
        Operation::Both => THIN_FOR_BOTH,
        Operation::Either => THIN_FOR_EITHER,
        Operation::Without => THIN_FOR_WITHOUT,
    }
}

// How many of `most` numbers to lend for keeping the result of two images of `all` steps together: none where it is counted by windows.
fn lent<'a>(most: usize, all: usize, first: &'a [u8], second: &'a [u8]) -> usize
    requires { Taken first.now × Taken second.now }
    ensures { result ≤ most }
{
    if thin(THIN_TO_COUNT, all, first, second) {
        return most;
    }
    0
}

// How many steps the result of two images has. They are kept in `few` where it has room for all of them.
fn count<'a>(op: Operation, first: &'a [u8], second: &'a [u8], few: &mut [u32]) -> usize
    requires { Taken first.now × Taken second.now }
    ensures { Held op first.now second.now result few.new }
{
    if few.len() == 0 {
        return pair_dense::count(op, first, second);
    }
    pair_thin::count(op, first, second, few)
}

// Stores the `n` steps of the result of two images of `all` steps together, which `few` holds where it has room for them.
fn store<'a>(
    op: Operation,
    all: usize,
    n: usize,
    first: &'a [u8],
    second: &'a [u8],
    few: &'a [u32],
    steps: &mut [u32],
) -> usize
    requires taken { (Taken first.now × Taken second.now) × Held op first.now second.now n few.now }
    requires second_in_bounds { length (result_of op (steps_of first.now) (steps_of second.now)) ≤ length steps.old }
    ensures { (result ≡ length (result_of op (steps_of first.now) (steps_of second.now)))
        × (steps.new ≡ result_of op (steps_of first.now) (steps_of second.now)
        ++ drop (length (result_of op (steps_of first.now) (steps_of second.now))) steps.old) }
{
    if n <= few.len() {
        pair_thin::put(&few[..n], steps, 0);
        return n;
    }
    if thin(thin_for(op), all, first, second) {
        return pair_thin::store(op, first, second, steps);
    }
    pair_dense::store(op, first, second, steps)
}

// Stores and writes the result of two images of `all` steps together, for which there is room: `n` steps, which `few` holds where it can.
fn stored<'a>(
    op: Operation,
    all: usize,
    n: usize,
    first: &'a [u8],
    second: &'a [u8],
    few: &'a [u32],
    steps: &mut [u32],
    work: &mut [u32],
    out: &mut [u8],
) -> Result<Counted, Refusal>
    requires ready { Ready op first.now second.now (length steps.old) (length work.old) }
    requires held { Held op first.now second.now n few.now }
    ensures { Promise op first.now second.now steps.old work.old out.old result
        steps.new work.new out.new }
{
    let k = store(op, all, n, first, second, few, steps);
    outcome::write_front(steps, k, work, out)
}

// Counts the result of two images of `all` steps together, and stores and writes it unless something is too short; by a buffer for the steps
// of a short result.
fn counted_with<'a>(
    op: Operation,
    all: usize,
    first: &'a [u8],
    second: &'a [u8],
    few: &mut [u32],
    steps: &mut [u32],
    work: &mut [u32],
    out: &mut [u8],
) -> Result<Counted, Refusal>
    requires { Taken first.now × Taken second.now }
    ensures { Promise op first.now second.now steps.old work.old out.old result
        steps.new work.new out.new }
{
    let n = count(op, first, second, few);
    outcome::room_for(n, steps.len(), work.len())?;
    stored(op, all, n, first, second, few, steps, work, out)
}

// Counts the result of two images of `all` steps together, and stores and writes it unless something is too short.
fn counted<'a>(
    op: Operation,
    all: usize,
    first: &'a [u8],
    second: &'a [u8],
    steps: &mut [u32],
    work: &mut [u32],
    out: &mut [u8],
) -> Result<Counted, Refusal>
    requires { Taken first.now × Taken second.now }
    ensures { Promise op first.now second.now steps.old work.old out.old result
        steps.new work.new out.new }
{
    let mut few: [u32; FEW] = [0; FEW];
    let k = lent(FEW, all, first, second);
    counted_with(op, all, first, second, &mut few[..k], steps, work, out)
}

// A refusal of one of the two images.
fn on_side(side: u32, r: Refusal) -> Refusal
    ensures { result ≡ on_side side r }
{
    Refusal {
        number: r.number,
        side,
        place: r.place,
    }
}

// An operation on two images.
pub fn paired<'a>(
    op: Operation,
    first: &'a [u8],
    second: &'a [u8],
    steps: &mut [u32],
    work: &mut [u32],
    out: &mut [u8],
) -> Result<Counted, Refusal>
    ensures { Promise op first.now second.now steps.old work.old out.old result
        steps.new work.new out.new }
{
    let n = read::check(first).map_err(|r| on_side(FIRST_SIDE, r))?;
    let m = read::check(second).map_err(|r| on_side(SECOND_SIDE, r))?;
    let all = n as usize + m as usize;
    counted(op, all, first, second, steps, work, out)
}

// The steps that both images have.
pub fn both<'a>(
    first: &'a [u8],
    second: &'a [u8],
    steps: &mut [u32],
    work: &mut [u32],
    out: &mut [u8],
) -> Result<Counted, Refusal>
    ensures { Promise Both first.now second.now steps.old work.old out.old result
        steps.new work.new out.new }
{
    paired(Operation::Both, first, second, steps, work, out)
}

// The steps that one of the images has, or both.
pub fn either<'a>(
    first: &'a [u8],
    second: &'a [u8],
    steps: &mut [u32],
    work: &mut [u32],
    out: &mut [u8],
) -> Result<Counted, Refusal>
    ensures { Promise Either first.now second.now steps.old work.old out.old result
        steps.new work.new out.new }
{
    paired(Operation::Either, first, second, steps, work, out)
}

// The steps that the first image has and the second has not.
pub fn without<'a>(
    first: &'a [u8],
    second: &'a [u8],
    steps: &mut [u32],
    work: &mut [u32],
    out: &mut [u8],
) -> Result<Counted, Refusal>
    ensures { Promise Without first.now second.now steps.old work.old out.old result
        steps.new work.new out.new }
{
    paired(Operation::Without, first, second, steps, work, out)
}
