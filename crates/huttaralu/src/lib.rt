// The library as C sees it: each answer is a struct of numbers. Each function takes every input, and its promise is one equation: the
// answer, with each lent buffer afterwards.

#![tactic(auto)]

ghost use Rattle.std.specs.Prelude.{◌≡◌};
ghost use Rattle.pair_operation.specs.declared.Operation.TheVariants.{Both, Either, Without};
ghost use Rattle.huttaralu.specs.Says as says;

use answers::{Clock, Counted, Cursor, First, Moved, Ranked};

// Checks an image.
#[unsafe(no_mangle)]
pub extern "C" fn hutt_check(image: &[u8]) -> Counted
    ensures { result ≡ says.check image.now }
{
    read::check(image).into()
}

// Reads an image back into the step buffer.
#[unsafe(no_mangle)]
pub extern "C" fn hutt_read(image: &[u8], steps: &mut [u32]) -> Counted
    ensures { (result, steps.new) ≡ says.read image.now steps.old }
{
    read::read(image, steps).into()
}

// Writes the shortest image of a list to the front of the output.
#[unsafe(no_mangle)]
pub extern "C" fn hutt_write(list: &[u32], work: &mut [u32], out: &mut [u8]) -> Counted
    ensures { (result, work.new, out.new) ≡ says.write list.now work.old out.old }
{
    write::write(list, work, out).into()
}

// The step at a rank.
#[unsafe(no_mangle)]
pub extern "C" fn hutt_rank(image: &[u8], rank: u32) -> Ranked
    ensures { result ≡ says.rank image.now rank }
{
    ask::rank(image, rank).into()
}

// The first step at or after a bound, with its rank.
#[unsafe(no_mangle)]
pub extern "C" fn hutt_first_at(image: &[u8], bound: u32) -> First
    ensures { result ≡ says.first_at image.now bound }
{
    ask::first_at(image, bound).into()
}

// A cursor at rank 0.
#[unsafe(no_mangle)]
pub extern "C" fn hutt_start(image: &[u8]) -> Moved
    ensures { result ≡ says.start image.now }
{
    ask::start(image).into()
}

// The step at the cursor, and the cursor one rank on.
#[unsafe(no_mangle)]
pub extern "C" fn hutt_next(cursor: Cursor, image: &[u8]) -> Moved
    ensures { result ≡ says.next cursor.rank image.now }
{
    ask::Cursor::from(cursor).next(image).into()
}

// The cursor at the first rank, not below its own, whose step is at or after a bound.
#[unsafe(no_mangle)]
pub extern "C" fn hutt_skip(cursor: Cursor, image: &[u8], bound: u32) -> Moved
    ensures { result ≡ says.skip cursor.rank image.now bound }
{
    ask::Cursor::from(cursor).skip_to(image, bound).into()
}

// The steps that both images have, and their shortest image.
#[unsafe(no_mangle)]
pub extern "C" fn hutt_both<'a>(
    first: &'a [u8],
    second: &'a [u8],
    steps: &mut [u32],
    work: &mut [u32],
    out: &mut [u8],
) -> Counted
    ensures { (result, steps.new, work.new, out.new)
        ≡ says.pair Both first.now second.now steps.old work.old out.old }
{
    pair::both(first, second, steps, work, out).into()
}

// The steps that one of the images has, or both, and their shortest image.
#[unsafe(no_mangle)]
pub extern "C" fn hutt_either<'a>(
    first: &'a [u8],
    second: &'a [u8],
    steps: &mut [u32],
    work: &mut [u32],
    out: &mut [u8],
) -> Counted
    ensures { (result, steps.new, work.new, out.new)
        ≡ says.pair Either first.now second.now steps.old work.old out.old }
{
    pair::either(first, second, steps, work, out).into()
}

// The steps that the first image has and the second has not, and their shortest image.
#[unsafe(no_mangle)]
pub extern "C" fn hutt_without<'a>(
    first: &'a [u8],
    second: &'a [u8],
    steps: &mut [u32],
    work: &mut [u32],
    out: &mut [u8],
) -> Counted
    ensures { (result, steps.new, work.new, out.new)
        ≡ says.pair Without first.now second.now steps.old work.old out.old }
{
    pair::without(first, second, steps, work, out).into()
}

// When a step is.
#[unsafe(no_mangle)]
pub extern "C" fn hutt_clock_of(step: u32) -> Clock
    ensures { result ≡ says.clock_of step }
{
    clock::clock_of(step).into()
}
