// The steps of a bit row, put into a buffer word by word.

#![tactic(auto)]

ghost use Rattle.std.specs.Prelude.{◌≡◌, ◌+◌, ◌*◌, ◌^◌, ◌≤◌, ◌<◌, length};
ghost use Rattle.lists.specs.Stores.{Puts};
ghost use Rattle.row.specs.Row.{row_steps};
ghost use Rattle.row_word.specs.Groups.{group_bits, PutsLoose};

use row::{BYTE_BITS, WORD_BITS};
use row_word::{GROUP_BITS, NEAR};

// Free: measured; no proof depends on it. A row of fewer bytes is short.
const SHORT: usize = 512;

// Free: measured; no promise depends on it. So many bytes at the end of a longer row are read by themselves.
const TAIL: usize = 16;

// Puts the steps of a row, whose first bit stands for `from`, into a buffer from a place on, and gives the place after them. The four places
// after them are left with anything.
fn steps_loose(part: &[u8], from: usize, out: &mut [u32], at: usize) -> usize
    requires { (from + 8 * length part.now < 2 ^ 31) × (at + length (row_steps from part.now) + group_bits ≤ length out.old) }
    ensures { PutsLoose out.old at (row_steps from part.now) out.new result }
{
    let (words, rest) = part.as_chunks();
    let mut k = at;
    for (i, word) in words.iter().enumerate() {
        k = row_word::put_loose(row::word_of(word), from + WORD_BITS * i, out, k);
    }
    row_word::put_ones(row::last_word(rest), from + WORD_BITS * words.len(), out, k)
}

// Puts the steps of a row into a buffer for a caller that knows the place after them. The four numbers that stand there are put back, once for
// the row and not for each word, since reading ahead of the steps waits for memory that no store has reached yet.
fn steps_before(part: &[u8], from: usize, out: &mut [u32], at: usize, end: usize) -> usize
    requires { (from + 8 * length part.now < 2 ^ 31)
        × ((end ≡ at + length (row_steps from part.now)) × (end + group_bits ≤ length out.old)) }
    ensures { Puts out.old at (row_steps from part.now) out.new result }
{
    let after = [out[end], out[end + 1], out[end + 2], out[end + 3]];
    let k = steps_loose(part, from, out, at);
    row_word::put_four(after, out, end);
    k
}

// Puts the steps of a row into a buffer word by word, where no place after the steps changes.
// Kept: one loop for both ways would take a law of what a way leaves after the steps, which is longer than this loop.
fn steps_exact(part: &[u8], from: usize, out: &mut [u32], at: usize) -> usize
    requires { (from + 8 * length part.now ≤ 2 ^ 32) × (at + length (row_steps from part.now) ≤ length out.old) }
    ensures { Puts out.old at (row_steps from part.now) out.new result }
{
    let (words, rest) = part.as_chunks();
    let mut k = at;
    for (i, word) in words.iter().enumerate() {
        k = row_word::put_word(row::word_of(word), from + WORD_BITS * i, out, k);
    }
    row_word::put_ones(row::last_word(rest), from + WORD_BITS * words.len(), out, k)
}

// Puts the steps of a row into a buffer, by the faster of the two ways if the buffer has four places more.
fn steps_in(part: &[u8], from: usize, out: &mut [u32], at: usize) -> usize
    requires { (from + 8 * length part.now ≤ 2 ^ 32) × (at + length (row_steps from part.now) ≤ length out.old) }
    ensures { Puts out.old at (row_steps from part.now) out.new result }
{
    if from + BYTE_BITS * part.len() < NEAR {
        let n = row::count(part);
        if n + GROUP_BITS <= out.len() - at {
            return steps_before(part, from, out, at, at + n);
        }
    }
    steps_exact(part, from, out, at)
}

// Puts the steps of a row, whose first bit stands for `from`, into a buffer from a place on, and gives the place after them. The last bytes are
// read by themselves: where the buffer has no place more than the row has steps, theirs give room to those before them. A short row is not
// worth counting first.
pub fn steps(part: &[u8], from: usize, out: &mut [u32], at: usize) -> usize
    requires { (from + 8 * length part.now ≤ 2 ^ 32) × (at + length (row_steps from part.now) ≤ length out.old) }
    ensures { Puts out.old at (row_steps from part.now) out.new result }
{
    if part.len() < SHORT {
        return steps_exact(part, from, out, at);
    }
    let n = part.len() - TAIL;
    let k = steps_in(&part[..n], from, out, at);
    steps_exact(&part[n..], from + BYTE_BITS * n, out, k)
}
