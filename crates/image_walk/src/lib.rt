// A walk over the steps of an accepted image, in order, by value and without a buffer. Each block is read in its own part of the payload: a
// block of codes code by code, a bit row by words of which only the ones are met.
//
// A walk goes with the image that it goes over and its payload. A move within the loaded word, or to a code of
// one byte, is what most moves are: `next` is small, so that it is made part of its caller's loop and the walk stays in registers there. All
// other moves go by `turned`, which is handed what is left as a value of its own.

#![tactic(auto)]

ghost use Rattle.std.specs.Prelude.{◌≡◌, ◌^◌, ◌<◌};
ghost use Rattle.lists.specs.Bytes.{Bytes};
ghost use Rattle.rules.specs.Limits.{no_step};
ghost use Rattle.image.specs.Taken.{steps_of, Taken, payload_in};
ghost use Rattle.image_walk.specs.Walk.{ahead, Placed, Stands, Follows};
ghost use Rattle.image_walk.specs.Turns.{met_walk, coded_walk, Readable, Left, Turned};
ghost use Rattle.image_walk.specs.Inside.Moves.{rest_of, Current, Met, bit_move, Moves};

use row::{WORD_BITS, WORD_BYTES};

// An image and its payload, which is lent beside it so that it is cut off once. Any two slices are one: that they have bytes, all slices say.
// What a move has to know of them, `Stands` and `Left` say, which speak of the blocks from the walk's own on.
#[derive(Clone, Copy)]
pub struct Source<'a> {
    pub image: &'a [u8],
    pub payload: &'a [u8],
    ghost bytes: { Bytes payload.now },
}

impl<'a> Source<'a> {
    // An image and a payload, whatever they are.
    pub fn new(image: &'a [u8], payload: &'a [u8]) -> Source<'a>
        ensures { (result.image.now ≡ image.now) × (result.payload.now ≡ payload.now) }
    {
        Source { image, payload }
    }
}

// An accepted image with its own payload.
#[derive(Clone, Copy)]
pub struct Accepted<'a> {
    pub source: Source<'a>,
    ghost bytes: { Bytes source.image.now },
    ghost taken: { Taken source.image.now },
    ghost cut: { source.payload.now ≡ payload_in source.image.now },
}

impl<'a> Accepted<'a> {
    // An accepted image, to be walked over.
    pub fn new(image: &'a [u8]) -> Accepted<'a>
        requires { Taken image.now }
        ensures { result.source.image.now ≡ image.now }
    {
        Accepted {
            source: Source::new(image, image_directory::payload(image)),
        }
    }
}

// Where a walk stands.
#[derive(Clone, Copy)]
pub struct Walk {
    // The step, or one past the largest where none is left.
    // Kept: no Option, since that number is above every step, so that who merges needs no test for the end.
    pub step: usize,
    // In a bit row: the step that the loaded word's lowest bit stands for, and the ones of the word from the walk's step on. In codes: the
    // step, and 0.
    pub low: usize,
    pub bits: usize,
    // The place in the payload up to which the open block is read, where the block ends, and the number of the block after it.
    pub at: usize,
    pub end: usize,
    pub block: usize,
}

// What a walk has left when its word, or its code, is passed: the least step that may come in a code or in another block, the step that the
// row's next bit stands for, 0 where the open block has codes, and the places of the walk.
// Kept: the kind is a number, since it comes as one, from the directory or as the bits of a word, and is only compared with 0.
#[derive(Clone, Copy)]
pub struct Rest {
    pub next: usize,
    pub from: usize,
    pub kind: usize,
    pub at: usize,
    pub end: usize,
    pub block: usize,
}

// The walk at the lowest one of a word.
pub fn met(low: usize, bits: usize, at: usize, end: usize, block: usize) -> Walk
    requires { low < 2 ^ 32 }
    ensures { result ≡ met_walk low bits at end block }
{
    Walk {
        step: low + (usize::trailing_zeros(bits) as usize),
        low,
        bits,
        at,
        end,
        block,
    }
}

// The walk at a step among codes.
pub fn coded(step: usize, at: usize, end: usize, block: usize) -> Walk
    ensures { result ≡ coded_walk step at end block }
{
    Walk {
        step,
        low: step,
        bits: 0,
        at,
        end,
        block,
    }
}

// Reads the next code.
fn in_codes(p: Rest, payload: &[u8]) -> Walk
    requires { Readable payload.now p × ((p.kind ≡ 0) × (p.at < p.end)) }
    ensures { Met payload.now p result }
{
    let at = p.at;
    let end = p.end;
    match code::read(&payload[at..end], 0) {
        Ok(c) => coded(p.next + (c.value as usize), at + c.next, end, p.block),
        Err(_) => coded(p.next, at, end, p.block),
    }
}

// Loads the next word of a row that has a one.
fn in_row(p: Rest, payload: &[u8]) -> Walk
    requires { Readable payload.now p × ((p.kind ≡ 0 → ⊥) × (p.at < p.end)) }
    ensures { Met payload.now p result }
{
    let end = p.end;
    let mut at = p.at;
    let mut low = p.from;
    let mut bits = row::word(&payload[at..end]);
    while bits == 0 {
        at += WORD_BYTES;
        low += WORD_BITS;
        bits = row::word(&payload[at..end]);
    }
    met(low, bits, at + WORD_BYTES, end, p.block)
}

// Reads on in the open block.
fn inside(p: Rest, payload: &[u8]) -> Walk
    requires { Readable payload.now p × (p.at < p.end) }
    ensures { Met payload.now p result }
{
    if p.kind == rules::CODES {
        return in_codes(p, payload);
    }
    in_row(p, payload)
}

// What is left, or the next block where nothing is left of the open one and there is another.
fn current<'a>(p: Rest, source: Source<'a>) -> Rest
    requires { Left source.image.now source.payload.now p }
    ensures { Current source.entry.image.now source.entry.payload.now p result }
{
    if p.at < p.end {
        return p;
    }
    if p.end == source.payload.len() {
        return p;
    }
    let e = image_directory::entry(source.image, p.block);
    Rest {
        next: p.next,
        from: p.next,
        kind: e.kind,
        at: p.end,
        end: e.end,
        block: p.block + 1,
    }
}

// The walk at the next step of what is left, or past the last step.
pub fn turned<'a>(p: Rest, source: Source<'a>) -> Walk
    requires { Left source.image.now source.payload.now p }
    ensures { Turned source.entry.image.now source.entry.payload.now p result }
{
    let q = current(p, source);
    if q.at < q.end {
        return inside(q, source.payload);
    }
    coded(rules::no_step(), q.at, q.end, q.block)
}

// The walk at the first step of an accepted image.
pub fn first<'a>(accepted: Accepted<'a>) -> Walk
    ensures { Stands accepted.entry.source.image.now accepted.entry.source.payload.now result
        × (ahead accepted.entry.source.image.now accepted.entry.source.payload.now result ≡ steps_of accepted.entry.source.image.now) }
{
    turned(
        Rest {
            next: 0,
            from: 0,
            kind: rules::CODES,
            at: 0,
            end: 0,
            block: 0,
        },
        accepted.source,
    )
}

// Moves to the next one of the loaded word: none where no one is left.
fn next_bit(w: Walk) -> Option<Walk>
    requires { (0 < w.bits) × (w.low < 2 ^ 32) }
    ensures { result ≡ bit_move w }
{
    let bits = w.bits & (w.bits - 1);
    if bits == 0 {
        return None;
    }
    Some(met(w.low, bits, w.at, w.end, w.block))
}

// Moves on by a code of one byte: none where that is not what follows.
fn next_code(w: Walk, payload: &[u8]) -> Option<Walk>
    requires { Placed payload.now w × ((w.bits ≡ 0) × (w.step < no_step)) }
    ensures { Moves payload.now w result }
{
    let at = w.at;
    let end = w.end;
    if at < end {
        if let Some(gap) = code::single(&payload[at..end]) {
            return Some(coded(w.step + 1 + gap, at + 1, end, w.block));
        }
    }
    None
}

// Moves on within what is loaded: none where that leads out of it.
fn moved(w: Walk, payload: &[u8]) -> Option<Walk>
    requires { Placed payload.now w × (w.step < no_step) }
    ensures { Moves payload.now w result }
{
    if w.bits == 0 {
        return next_code(w, payload);
    }
    next_bit(w)
}

// What a walk has left when its word, or its code, is passed.
fn rest_of(w: Walk) -> Rest
    requires { (w.step < 2 ^ 32) × (w.low < 2 ^ 32) }
    ensures { result ≡ rest_of w }
{
    Rest {
        next: w.step + 1,
        from: w.low + WORD_BITS,
        kind: w.bits,
        at: w.at,
        end: w.end,
        block: w.block,
    }
}

impl Walk {
    // The walk at the next step. The turned walk has a name of its own, or the compiler would keep the walk in memory on the way that most
    // moves go.
    pub fn next<'a>(self, source: Source<'a>) -> Walk
        requires { Stands source.image.now source.payload.now self × (self.step < no_step) }
        ensures { Follows source.entry.image.now source.entry.payload.now self result }
    {
        let m = moved(self, source.payload);
        match m {
            Some(v) => v,
            None => {
                let r = turned(rest_of(self), source);
                r
            }
        }
    }
}
