// The result of an operation on two accepted images, counted and stored window by window: the steps of both are laid into words whose bits stand
// for steps, and the words are joined. Neither list is copied.

#![tactic(auto)]

ghost use Rattle.std.specs.Prelude.{◌≡◌, IsTrue, [], ◌++◌, ◌+◌, ◌*◌, ◌^◌, ◌≤◌, ◌<◌, length, drop};
ghost use Rattle.lists.specs.Rising.{beyond};
ghost use Rattle.lists.specs.Stores.{Puts, Brief};
ghost use Rattle.rules.specs.Limits.{no_step};
ghost use Rattle.row.specs.Row.{bits_from};
ghost use Rattle.row.specs.Words.{word_bits};
ghost use Rattle.pair_window.specs.Window.{words_from};
ghost use Rattle.image.specs.Taken.{steps_of, Taken};
ghost use Rattle.pair_operation.specs.Result.{result_of};
ghost use Rattle.pair_dense.specs.Inside.Words.{word_of, steps_in};
ghost use Rattle.pair_dense.specs.Inside.Taking.{Taking};
ghost use Rattle.pair_dense.specs.Inside.Walks.{Together, Begins, Passes};

use image_walk::{Accepted, Source, Walk};
use pair_operation::Operation;
use row::WORD_BITS;

// The words of a window, which has room for 4,096 steps. Free: measured; no proof depends on it.
const WORDS: usize = 64;

// The walks over the two images, and the lower of their steps, from which the next window goes.
#[derive(Clone, Copy)]
struct Walks {
    first: Walk,
    second: Walk,
    next: usize,
}

// The bits that an operation keeps of two words.
fn joined(op: Operation, a: usize, b: usize) -> usize
    ensures { result ≡ word_of op a b }
{
    match op {
        Operation::Both => a & b,
        Operation::Either => a | b,
        Operation::Without => a - (a & b),
    }
}

// How many steps an operation keeps of two windows.
fn count_window<'a>(op: Operation, left: &'a [usize], right: &'a [usize]) -> usize
    requires { (length left.now ≡ length right.now) × Brief left.now }
    ensures { result ≡ length (steps_in op 0 left.now right.now) }
{
    let mut n: usize = 0;
    for (a, b) in left.iter().zip(right) {
        n += row::ones(joined(op, *a, *b));
    }
    n
}

// Stores the steps of a joined word, the first of whose bits stands for `from`. Most words have none where little is in common.
fn put_joined(word: usize, from: usize, steps: &mut [u32], at: usize) -> usize
    requires { (beyond from (bits_from word_bits from word) ≤ 2 ^ 32) × (at + length (bits_from word_bits from word) ≤ length steps.old) }
    ensures { Puts steps.old at (bits_from word_bits from word) steps.new result }
{
    if word == 0 {
        return at;
    }
    row_word::put_word(word, from, steps, at)
}

// Stores the steps that an operation keeps of two windows, whose first bit stands for `from`, from a place on, and gives the place after them.
fn put_window<'a>(
    op: Operation,
    from: usize,
    left: &'a [usize],
    right: &'a [usize],
    steps: &mut [u32],
    at: usize,
) -> usize
    requires left_len { (length left.now ≡ length right.now) × (from + word_bits * length left.now ≤ 2 ^ 32) }
    requires right_in_bounds { at + length (steps_in op from left.now right.now) ≤ length steps.old }
    ensures { Puts steps.old at (steps_in op from left.now right.now) steps.new result }
{
    let mut k = at;
    for (i, a) in left.iter().enumerate() {
        let word = joined(op, *a, right[i]);
        k = put_joined(word, from + WORD_BITS * i, steps, k);
    }
    k
}

// The two walks at their first steps.
fn start<'a>(first: Accepted<'a>, second: Accepted<'a>) -> Walks
    ensures { Begins first.entry.source.image.now first.entry.source.payload.now second.entry.source.image.now second.entry.source.payload.now result }
{
    let a = image_walk::first(first);
    let b = image_walk::first(second);
    Walks {
        first: a,
        second: b,
        next: a.step.min(b.step),
    }
}

// Lays the steps of both that fall into the next window, and gives the walks after it.
fn lay_both<'a>(
    m: Walks,
    left: &mut [usize],
    right: &mut [usize],
    first: Source<'a>,
    second: Source<'a>,
) -> Walks
    requires together { Together first.image.now first.payload.now second.image.now second.payload.now m × (m.next < no_step) }
    requires left_value { (left.old ≡ words_from (length left.old) m.next []) × ((0 < length left.old) × Brief left.old) }
    requires right_value { (right.old ≡ words_from (length right.old) m.next []) × (length right.old ≡ length left.old) }
    ensures { Passes first.entry.image.now first.entry.payload.now second.entry.image.now second.entry.payload.now m
        left.new right.new result }
{
    let from = m.next;
    let a = pair_lay::lay_window(m.first, from, left, first);
    let b = pair_lay::lay_window(m.second, from, right, second);
    Walks {
        first: a,
        second: b,
        next: a.step.min(b.step),
    }
}

// Counts the steps that an operation keeps of two windows, whose first bit stands for `from`, and stores them if so wanted. `at` steps went
// before, and it gives how many went then.
fn take_window<'a, const STORED: bool>(
    op: Operation,
    from: usize,
    left: &'a [usize],
    right: &'a [usize],
    steps: &mut [u32],
    at: usize,
) -> usize
    requires left_len { (length left.now ≡ length right.now) × (Brief left.now × (from + word_bits * length left.now ≤ 2 ^ 32)) }
    requires counted { at + length (steps_in op from left.now right.now) ≤ no_step }
    requires room { IsTrue STORED → at + length (steps_in op from left.now right.now) ≤ length steps.old }
    ensures { Taking STORED steps.old at (steps_in op from left.now right.now) steps.new result }
{
    if STORED {
        return put_window(op, from, left, right, steps, at);
    }
    at + count_window(op, left, right)
}

// Takes the steps of the result, window by window, and gives their number.
fn take_all<'a, const STORED: bool>(
    op: Operation,
    first: Accepted<'a>,
    second: Accepted<'a>,
    steps: &mut [u32],
) -> usize
    requires { IsTrue STORED → length (result_of op (steps_of first.source.image.now) (steps_of second.source.image.now)) ≤ length steps.old }
    ensures { Taking STORED steps.old 0 (result_of op (steps_of first.entry.source.image.now) (steps_of second.entry.source.image.now)) steps.new result }
{
    let end = rules::no_step();
    let mut m = start(first, second);
    let mut n: usize = 0;
    while m.next < end {
        let mut left: [usize; WORDS] = [0; WORDS];
        let mut right: [usize; WORDS] = [0; WORDS];
        let from = m.next;
        m = lay_both(m, &mut left, &mut right, first.source, second.source);
        n = take_window::<STORED>(op, from, &left, &right, steps, n);
    }
    n
}

// How many steps the result has.
pub fn count<'a>(op: Operation, first: &'a [u8], second: &'a [u8]) -> usize
    requires { Taken first.now × Taken second.now }
    ensures { result ≡ length (result_of op (steps_of first.now) (steps_of second.now)) }
{
    take_all::<false>(op, Accepted::new(first), Accepted::new(second), &mut [])
}

// Stores the steps of the result, and gives their number.
pub fn store<'a>(op: Operation, first: &'a [u8], second: &'a [u8], steps: &mut [u32]) -> usize
    requires taken { Taken first.now × Taken second.now }
    requires second_in_bounds { length (result_of op (steps_of first.now) (steps_of second.now)) ≤ length steps.old }
    ensures { (result ≡ length (result_of op (steps_of first.now) (steps_of second.now)))
        × (steps.new ≡ result_of op (steps_of first.now) (steps_of second.now)
        ++ drop (length (result_of op (steps_of first.now) (steps_of second.now))) steps.old) }
{
    take_all::<true>(op, Accepted::new(first), Accepted::new(second), steps)
}
