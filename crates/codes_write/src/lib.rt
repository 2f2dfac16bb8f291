// The codes of a rising list, put into bytes: for each step the code of (step − step before it − 1). Where the codes of a group of steps are
// single bytes they are put without looking at each, else one by one.

#![tactic(auto)]

ghost use Rattle.std.specs.Prelude.{◌+◌, ◌≤◌, ◌<◌, length, drop};
ghost use Rattle.lists.specs.Rising.{Rising, beyond};
ghost use Rattle.lists.specs.Parts.{part};
ghost use Rattle.lists.specs.Stores.{Puts};
ghost use Rattle.code.specs.Code.{one_group, code_values};
ghost use Rattle.codes.specs.Codes.{codes_for};
ghost use Rattle.codes_write.specs.Inside.Groups.{group, Near};

// Free: measured; the proofs know it as `group`. Steps whose codes are written at once where each is a single byte.
const GROUP: usize = 16;

// Free: measured; no proof depends on it. Steps whose codes are written one by one before the next trial: where a long code is, more will
// follow.
const ROUND: usize = 64;

// The rank of the first step whose code was not put, and the place after the codes.
#[derive(Clone, Copy)]
struct Written {
    upto: usize,
    after: usize,
}

// A number that no gap of a rising list exceeds.
fn largest_gap(list: &[u32], from: u32) -> u32
    requires { Rising from list.now × (beyond from list.now ≤ code_values) }
    ensures { result < one_group → Near from list.now }
{
    let mut next = from;
    let mut largest: u32 = 0;
    for &x in list {
        largest = largest.max(x - next);
        next = x + 1;
    }
    largest
}

// Puts codes that are single bytes.
fn put_singles(list: &[u32], from: u32, out: &mut [u8], at: usize) -> usize
    requires { Near from list.now
        × (Rising from list.now × ((beyond from list.now ≤ code_values) × (at + length (codes_for from list.now) ≤ length out.old))) }
    ensures { Puts out.old at (codes_for from list.now) out.new result }
{
    let mut next = from;
    for (i, &x) in list.iter().enumerate() {
        out[at + i] = (x - next) as u8;
        next = x + 1;
    }
    at + list.len()
}

// Puts the codes of a list, one by one.
fn put_each(list: &[u32], from: u32, out: &mut [u8], at: usize) -> usize
    requires { Rising from list.now × ((beyond from list.now ≤ code_values) × (at + length (codes_for from list.now) ≤ length out.old)) }
    ensures { Puts out.old at (codes_for from list.now) out.new result }
{
    let mut next = from;
    let mut p = at;
    for &x in list {
        p = code::put(out, p, x - next);
        next = x + 1;
    }
    p
}

// Puts the codes of the next steps of a list: those of a group where each is a single byte, else those of a round, one by one.
fn put_some(list: &[u32], i: usize, from: u32, out: &mut [u8], at: usize) -> Written
    requires { (i + group ≤ length list.now) × (Rising from (drop i list.now)
        × ((beyond from (drop i list.now) ≤ code_values) × (at + length (codes_for from (drop i list.now)) ≤ length out.old))) }
    ensures { ((i < result.upto) × (result.upto ≤ length list.now))
        × Puts out.old at (codes_for from (part list.now i result.upto)) out.new result.after }
{
    let near = i + GROUP;
    if largest_gap(&list[i..near], from) < code::ONE_GROUP {
        return Written {
            upto: near,
            after: put_singles(&list[i..near], from, out, at),
        };
    }
    let far = list.len().min(i + ROUND);
    Written {
        upto: far,
        after: put_each(&list[i..far], from, out, at),
    }
}

// Puts the codes of a rising list that begins at `from` at the earliest into bytes from a place on, and gives the place after them.
pub fn put(list: &[u32], from: u32, out: &mut [u8], at: usize) -> usize
    requires { Rising from list.now × ((beyond from list.now ≤ code_values) × (at + length (codes_for from list.now) ≤ length out.old)) }
    ensures { Puts out.old at (codes_for from list.now) out.new result }
{
    let mut i: usize = 0;
    let mut next = from;
    let mut p = at;
    while GROUP <= list.len() - i {
        let t = put_some(list, i, next, out, p);
        next = list[t.upto - 1] + 1;
        i = t.upto;
        p = t.after;
    }
    put_each(&list[i..], next, out, p)
}
