// Laying what of a bit row falls into a window, by words of the row as they are, and moving a walk past it.

#![tactic(auto)]

ghost use Rattle.std.specs.Prelude.{◌≡◌, ◌+◌, ◌*◌, ◌^◌, ◌≤◌, ◌<◌, length};
ghost use Rattle.lists.specs.Stores.{Brief};
ghost use Rattle.row.specs.Words.{word_bytes, word_bits};
ghost use Rattle.image_walk.specs.Walk.{Stands};
ghost use Rattle.image_walk.specs.Turns.{Readable};
ghost use Rattle.pair_lay_row.specs.Lays.{Within, Lays};
ghost use Rattle.pair_lay_row.specs.Inside.Rows.{word_rest, Cuts, Rows};

use image_walk::{Rest, Source, Walk};
use row::{WORD_BITS, WORD_BYTES};

// What a walk in a row has left when all ones of its word are passed.
fn past_word(w: Walk) -> Rest
    requires { (0 < w.bits) × (w.low < 2 ^ 32) }
    ensures { result ≡ word_rest w }
{
    Rest {
        next: w.low + WORD_BITS - (usize::leading_zeros(w.bits) as usize),
        from: w.low + WORD_BITS,
        kind: w.bits,
        at: w.at,
        end: w.end,
        block: w.block,
    }
}

// Moves past the ones of the loaded word that lie before a bound, which falls into the word.
fn past_below<'a>(w: Walk, bound: usize, source: Source<'a>) -> Walk
    requires { Stands source.image.now source.payload.now w × ((0 < w.bits) × ((w.step < bound) × (bound < w.low + word_bits))) }
    ensures { Cuts source.entry.image.now source.entry.payload.now w bound result }
{
    let under = bound - w.low;
    let bits = w.bits >> under << under;
    if bits == 0 {
        return image_walk::turned(past_word(w), source);
    }
    image_walk::met(w.low, bits, w.at, w.end, w.block)
}

// How many words of what is left of a row have room in some bits, the row's last word aside.
fn fitting(p: Rest, room: usize) -> usize
    requires { p.at < p.end }
    ensures { (word_bits * result ≤ room) × (p.at + word_bytes * result < p.end) }
{
    let count = (p.end - p.at - 1) / WORD_BYTES;
    count.min(room / WORD_BITS)
}

// Lays the words of a row that fall into a window whole, the row's last word aside, and gives what is left then.
fn lay_words(p: Rest, from: usize, words: &mut [usize], payload: &[u8]) -> Rest
    requires readable { Readable payload.now p × (p.kind ≡ 0 → ⊥) }
    requires from_le_from { (from ≤ p.from) × ((p.from ≤ from + word_bits * length words.old) × ((from < 2 ^ 32) × Brief words.old)) }
    ensures { Rows payload.now p from words.old words.new result }
{
    if p.end <= p.at {
        return p;
    }
    let place = p.from - from;
    let count = fitting(p, WORD_BITS * words.len() - place);
    for i in 0..count {
        let at = p.at + WORD_BYTES * i;
        let bits = row::word(&payload[at..at + WORD_BYTES]);
        pair_window::lay(words, place + WORD_BITS * i, bits);
    }
    Rest {
        next: p.next,
        from: p.from + WORD_BITS * count,
        kind: p.kind,
        at: p.at + WORD_BYTES * count,
        end: p.end,
        block: p.block,
    }
}

// Lays what of the loaded word falls into a window, and the words after it, and moves past them. The lowest one goes to its own place,
// which is never before the window.
pub fn lay_word<'a>(w: Walk, from: usize, words: &mut [usize], source: Source<'a>) -> Walk
    requires { Stands source.image.now source.payload.now w × (Within w from words.old × (0 < w.bits)) }
    ensures { Lays source.entry.image.now source.entry.payload.now w from words.old words.new result }
{
    let bound = from + WORD_BITS * words.len();
    pair_window::lay(words, w.step - from, w.bits >> (w.step - w.low));
    if bound < w.low + WORD_BITS {
        return past_below(w, bound, source);
    }
    let q = lay_words(past_word(w), from, words, source.payload);
    image_walk::turned(q, source)
}
