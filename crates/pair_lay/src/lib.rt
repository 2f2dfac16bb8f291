// Laying the steps ahead of a walk into a window, in larger pieces than steps: what a row has in words, and runs of short codes in loops of
// their own, four codes a turn while there are four.

#![tactic(auto)]

ghost use Rattle.std.specs.Prelude.{◌≡◌, [], ◌+◌, ◌-◌, ◌/◌, ◌%◌, ◌≤◌, ◌<◌, length, IfSome};
ghost use Rattle.lists.specs.Stores.{Brief};
ghost use Rattle.rules.specs.Limits.{no_step};
ghost use Rattle.pair_window.specs.Window.{words_from};
ghost use Rattle.code.specs.Code.{flag};
ghost use Rattle.image_walk.specs.Walk.{Placed, Stands, Follows};
ghost use Rattle.image_walk.specs.Turns.{coded_walk};
ghost use Rattle.pair_lay_row.specs.Lays.{Within, Lays};
ghost use Rattle.pair_lay.specs.Lays.{LaysWindow};
ghost use Rattle.pair_lay.specs.Inside.Runs.{Opens, Ran};
ghost use Rattle.pair_lay.specs.Inside.Fours.{at_once, Plain, Leading};

use image_walk::{Source, Walk};
use row::WORD_BITS;

// Document 01: the values of a byte.
const BYTE_VALUES: usize = 256;

// Document 01: the high bit of a byte, which a code of one byte does not have.
const FLAG: usize = 128;

// Codes of one byte that are read at once. Free: measured; `Four` and `lay_fours` are written for this number.
const AT_ONCE: usize = 4;

// Free: it follows from the two above. The number whose so many bytes are 1.
const ONES: usize = 16843009;

// What four bytes say of four steps, where each byte is a code by itself: how far it is from each step to the next. `flags` is 0 where that is
// so.
#[derive(Clone, Copy)]
struct Four {
    first: usize,
    second: usize,
    third: usize,
    fourth: usize,
    flags: usize,
}

// The value of the code at a place of the payload, in a part that goes up to `end`, where it has one byte.
fn single_at(payload: &[u8], at: usize, end: usize) -> Option<usize>
    requires { at < end → end ≤ length payload.now }
    ensures { IfSome result (Opens payload.now at end) }
{
    if end <= at {
        return None;
    }
    code::single(&payload[at..end])
}

// 1 where the lowest byte of a number has the high bit.
fn high(number: usize) -> usize
    ensures { (result ≡ number / flag % 2) × (result < 2) }
{
    number / FLAG % 2
}

// 0 where none of a number's four bytes has the high bit. Each bit stays at a place of its own, so that one test of the number finds all.
fn flags(number: usize) -> usize
    ensures { result ≡ 0 → Plain number }
{
    let second = number / BYTE_VALUES;
    let third = second / BYTE_VALUES;
    let fourth = third / BYTE_VALUES;
    high(number)
        + BYTE_VALUES * (high(second) + BYTE_VALUES * (high(third) + BYTE_VALUES * high(fourth)))
}

// What the four bytes at a place say. They are read as one number, and 1 is added to all of them at once; what is told is taken from that sum,
// since bytes that are also used one by one would be loaded one by one.
fn four_at(payload: &[u8], at: usize) -> Four
    requires { at + at_once ≤ length payload.now }
    ensures { result.flags ≡ 0 → Leading payload.now at result.first result.second result.third result.fourth }
{
    let number = rules::number_at(payload, at);
    let onward = number + ONES;
    let second = onward / BYTE_VALUES;
    let third = second / BYTE_VALUES;
    Four {
        first: onward % BYTE_VALUES,
        second: second % BYTE_VALUES,
        third: third % BYTE_VALUES,
        fourth: third / BYTE_VALUES,
        flags: flags(number),
    }
}

// The place before which four bytes begin, in a part that goes up to `end`.
fn before_last(end: usize) -> usize
    ensures { result ≡ end - (at_once - 1) }
{
    if end < AT_ONCE {
        return 0;
    }
    end - (AT_ONCE - 1)
}

// Lays the steps of a walk among codes, four a turn, as long as all four fall into a window and four codes of one byte follow. It goes by places
// in the window, which are what is marked.
fn lay_fours(w: Walk, from: usize, words: &mut [usize], payload: &[u8]) -> Walk
    requires placed { Placed payload.now w × ((w.bits ≡ 0) × (w.at < w.end)) }
    requires from_le_step { (from ≤ w.step) × Brief words.old }
    ensures { Ran payload.now w from words.old words.new result
        × (result ≡ coded_walk result.step result.at w.end w.block) }
{
    let room = WORD_BITS * words.len();
    let end = w.end;
    let upto = before_last(end);
    let mut place = w.step - from;
    let mut at = w.at;
    while at < upto {
        let four = four_at(payload, at);
        if four.flags != 0 {
            return image_walk::coded(from + place, at, end, w.block);
        }
        let second = place + four.first;
        let third = second + four.second;
        let fourth = third + four.third;
        if room <= fourth {
            return image_walk::coded(from + place, at, end, w.block);
        }
        pair_window::mark(words, place);
        pair_window::mark(words, second);
        pair_window::mark(words, third);
        pair_window::mark(words, fourth);
        place = fourth + four.fourth;
        at += AT_ONCE;
    }
    image_walk::coded(from + place, at, end, w.block)
}

// Lays the steps of a walk among codes as long as they fall into a window and a code of one byte follows: four a turn, then what is left one by
// one.
fn lay_run(w: Walk, from: usize, words: &mut [usize], payload: &[u8]) -> Walk
    requires placed { Placed payload.now w × ((w.bits ≡ 0) × (w.at < w.end)) }
    requires from_le_step { (from ≤ w.step) × Brief words.old }
    ensures { Ran payload.now w from words.old words.new result }
{
    let v = lay_fours(w, from, words, payload);
    let bound = from + WORD_BITS * words.len();
    let end = w.end;
    let mut step = v.step;
    let mut at = v.at;
    while step < bound {
        let Some(gap) = single_at(payload, at, end) else {
            break;
        };
        pair_window::mark(words, step - from);
        step += gap + 1;
        at += 1;
    }
    image_walk::coded(step, at, end, w.block)
}

// The walk at the next step after a step among codes, by a code of two bytes or as any walk goes.
fn next_code<'a>(w: Walk, source: Source<'a>) -> Walk
    requires { Stands source.image.now source.payload.now w × ((w.bits ≡ 0) × (w.step < no_step)) }
    ensures { Follows source.entry.image.now source.entry.payload.now w result }
{
    let at = w.at;
    let end = w.end;
    if at < end {
        if let Some(gap) = code::double(&source.payload[at..end]) {
            return image_walk::coded(w.step + 1 + gap, at + 2, end, w.block);
        }
    }
    w.next(source)
}

// Lays the step of a walk among codes and those of the codes after it, and moves past them. The walk mostly stands before a code of two
// bytes: it is the end of a run.
fn lay_codes<'a>(w: Walk, from: usize, words: &mut [usize], source: Source<'a>) -> Walk
    requires { Stands source.image.now source.payload.now w × (Within w from words.old × (w.bits ≡ 0)) }
    ensures { Lays source.entry.image.now source.entry.payload.now w from words.old words.new result }
{
    pair_window::mark(words, w.step - from);
    let v = next_code(w, source);
    if v.end <= v.at {
        return v;
    }
    if v.bits != 0 {
        return v;
    }
    lay_run(v, from, words, source.payload)
}

// Lays what is loaded, as far as it falls into a window, and moves past it.
fn lay_loaded<'a>(w: Walk, from: usize, words: &mut [usize], source: Source<'a>) -> Walk
    requires { Stands source.image.now source.payload.now w × Within w from words.old }
    ensures { Lays source.entry.image.now source.entry.payload.now w from words.old words.new result }
{
    if w.bits == 0 {
        return lay_codes(w, from, words, source);
    }
    pair_lay_row::lay_word(w, from, words, source)
}

// Lays the steps ahead that fall into a window, whose first bit stands for `from`, and gives the walk at the first step after it.
pub fn lay_window<'a>(w: Walk, from: usize, words: &mut [usize], source: Source<'a>) -> Walk
    requires stands { Stands source.image.now source.payload.now w × (from ≤ w.step) }
    requires words_value { (words.old ≡ words_from (length words.old) from []) × Brief words.old }
    ensures { LaysWindow source.entry.image.now source.entry.payload.now w from words.new result }
{
    let none = rules::no_step();
    let bound = from + WORD_BITS * words.len();
    let top = bound.min(none);
    let mut at = w;
    while at.step < top {
        at = lay_loaded(at, from, words, source);
    }
    at
}
