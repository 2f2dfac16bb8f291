// The bit row of a rising list, put into bytes. Steps are marked one by one or, where they are neighbours, eight at once.

#![tactic(auto)]

ghost use Rattle.std.specs.Prelude.{◌≡◌, [], ◌+◌, ◌^◌, ◌≤◌, ◌<◌, length, get_or, drop};
ghost use Rattle.std.proofs.lemmas.List.Edits.{sets};
ghost use Rattle.lists.specs.Rising.{Rising};
ghost use Rattle.lists.specs.Stores.{Puts};
ghost use Rattle.row.specs.Row.{bytes_from, row_of};
ghost use Rattle.row_write.specs.Inside.Marks.{plus, marked, Markable};

use row::{BYTE_BITS, BYTE_VALUES};

// Free: the proofs go by it. Steps that are marked at once where they are neighbours: as many as a byte has bits, so that they stand in two
// bytes at most.
const NEIGHBOURS: usize = BYTE_BITS;

// Adds bits that are 0 so far to a byte.
fn add(bits: usize, out: &mut [u8], place: usize)
    requires { (place < length out.old) × (get_or out.old place 0 + bits < 256) }
    ensures { out.new ≡ plus out.old place bits }
{
    out[place] += bits as u8;
}

// Marks the steps from rank `i` up to another in the row that stands at `at`.
fn mark(list: &[u32], i: usize, end: usize, from: u32, out: &mut [u8], at: usize)
    requires { Markable from at list.now i out.old × ((i ≤ end) × (end ≤ length list.now)) }
    ensures { marked from at (drop end list.now) out.new
        ≡ marked from at (drop i list.now) out.old }
{
    for k in i..end {
        let bit = (list[k] - from) as usize;
        add(row::one_at(bit % BYTE_BITS), out, at + bit / BYTE_BITS);
    }
}

// Marks eight neighbours, of which the one at rank `i` is the first: ones up to the end of its byte, and the others in the next.
fn mark_neighbours(list: &[u32], i: usize, from: u32, out: &mut [u8], at: usize)
    requires { Markable from at list.now i out.old
        × ((i + 8 ≤ length list.now) × (get_or list.now (i + 7) 0 ≡ get_or list.now i 0 + 7)) }
    ensures { marked from at (drop (i + 8) list.now) out.new
        ≡ marked from at (drop i list.now) out.old }
{
    let bit = (list[i] - from) as usize;
    let low = row::one_at(bit % BYTE_BITS);
    add(BYTE_VALUES - low, out, at + bit / BYTE_BITS);
    add(low - 1, out, at + (bit + (BYTE_BITS - 1)) / BYTE_BITS);
}

// Marks any eight steps from rank `i` on. A processor foresees whether they are neighbours, in long runs and where steps are scattered.
fn mark_eight(list: &[u32], i: usize, from: u32, out: &mut [u8], at: usize)
    requires { Markable from at list.now i out.old × (i + 8 ≤ length list.now) }
    ensures { marked from at (drop (i + 8) list.now) out.new
        ≡ marked from at (drop i list.now) out.old }
{
    let last = list[i + (NEIGHBOURS - 1)] as usize;
    if last == (list[i] as usize) + (NEIGHBOURS - 1) {
        mark_neighbours(list, i, from, out, at);
    } else {
        mark(list, i, i + NEIGHBOURS, from, out, at);
    }
}

// Makes some bytes 0.
fn clear(out: &mut [u8], at: usize, n: usize)
    requires { at + n ≤ length out.old }
    ensures { out.new ≡ sets out.old at (bytes_from n 0 []) }
{
    out[at..at + n].fill(0);
}

// How many bytes the row of a rising list has.
fn size(list: &[u32], from: u32) -> usize
    requires { Rising from list.now }
    ensures { (result ≡ length (row_of from list.now)) × (result ≤ 2 ^ 29) }
{
    let n = list.len();
    if n == 0 {
        return 0;
    }
    ((list[n - 1] - from) as usize) / BYTE_BITS + 1
}

// Puts the row of a rising list, whose first bit stands for `from`, into bytes from a place on, and gives the place after it.
pub fn put(list: &[u32], from: u32, out: &mut [u8], at: usize) -> usize
    requires { Rising from list.now × (at + length (row_of from list.now) ≤ length out.old) }
    ensures { Puts out.old at (row_of from list.now) out.new result }
{
    let bytes = size(list, from);
    clear(out, at, bytes);
    let eights = list.len() / NEIGHBOURS;
    for i in 0..eights {
        mark_eight(list, NEIGHBOURS * i, from, out, at);
    }
    mark(list, NEIGHBOURS * eights, list.len(), from, out, at);
    at + bytes
}
