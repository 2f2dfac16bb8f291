// The steps of a word of a bit row, put into a buffer: one bit or one group of four bits at a time.

#![tactic(auto)]

ghost use Rattle.std.specs.Prelude.{◌≡◌, MatchOption, ◌+◌, ◌-◌, ◌^◌, ◌≤◌, ◌<◌, length};
ghost use Rattle.std.proofs.lemmas.List.Edits.{sets};
ghost use Rattle.lists.specs.Rising.{beyond};
ghost use Rattle.lists.specs.Stores.{Puts};
ghost use Rattle.row.specs.Row.{bits_from};
ghost use Rattle.row.specs.Words.{word_bits};
ghost use Rattle.row_word.specs.Groups.{group_bits, group_values, PutsLoose};

use row::WORD_BITS;

// Free: the table and the proofs go by it. A group is four bits of a word, whose ones are looked up at once.
pub const GROUP_BITS: usize = 4;

// Free: it follows from the bits of a group, which has so many values.
const GROUP_VALUES: usize = 16;

// What is looked up for a group: the places of its ones, the lowest first, and then others up to four, which nobody reads; and how many ones it
// has. It has eight bytes, so that a processor reaches the one of a group without a product.
struct Group {
    places: [u8; 4],
    count: u32,
}

// Free: the proofs compute it. All groups.
static GROUPS: [Group; 16] = [
    Group {
        places: [0, 1, 2, 3],
        count: 0,
    },
    Group {
        places: [0, 1, 2, 3],
        count: 1,
    },
    Group {
        places: [1, 1, 2, 3],
        count: 1,
    },
    Group {
        places: [0, 1, 2, 3],
        count: 2,
    },
    Group {
        places: [2, 1, 2, 3],
        count: 1,
    },
    Group {
        places: [0, 2, 2, 3],
        count: 2,
    },
    Group {
        places: [1, 2, 2, 3],
        count: 2,
    },
    Group {
        places: [0, 1, 2, 3],
        count: 3,
    },
    Group {
        places: [3, 1, 2, 3],
        count: 1,
    },
    Group {
        places: [0, 3, 2, 3],
        count: 2,
    },
    Group {
        places: [1, 3, 2, 3],
        count: 2,
    },
    Group {
        places: [0, 1, 3, 3],
        count: 3,
    },
    Group {
        places: [2, 3, 2, 3],
        count: 2,
    },
    Group {
        places: [0, 2, 3, 3],
        count: 3,
    },
    Group {
        places: [1, 2, 3, 3],
        count: 3,
    },
    Group {
        places: [0, 1, 2, 3],
        count: 4,
    },
];

// Free: measured; no proof depends on it. A word with fewer ones is read one by one. Of 4 to 12 this was among the fastest for random rows.
const MANY: usize = 6;

// Free: half of the 32-bit numbers. Where a word begins below this, any of its steps and a byte's value more are 32-bit numbers.
pub const NEAR: usize = 2147483648;

// Free: it follows from the bits of a word. The word whose bits are all 1.
const FULL: usize = usize::MAX;

// Kept: `from`, `out` and `at` are no struct, since `from` and `at` change with each word and each group: it would be made anew at each call.
// Puts the steps of a word without a zero, whose first bit stands for `from`, into a buffer from a place on, and gives the place after them.
fn put_full(from: usize, out: &mut [u32], at: usize) -> usize
    requires { (from + word_bits ≤ 2 ^ 32) × (at + word_bits ≤ length out.old) }
    ensures { Puts out.old at (bits_from word_bits from (2 ^ word_bits - 1)) out.new result }
{
    for j in 0..WORD_BITS {
        out[at + j] = (from + j) as u32;
    }
    at + WORD_BITS
}

// Puts the steps of a word, whose first bit stands for `from`, into a buffer from a place on, one by one, and gives the place after them.
pub fn put_ones(word: usize, from: usize, out: &mut [u32], at: usize) -> usize
    requires { (beyond from (bits_from word_bits from word) ≤ 2 ^ 32) × (at + length (bits_from word_bits from word) ≤ length out.old) }
    ensures { Puts out.old at (bits_from word_bits from word) out.new result }
{
    let mut bits = word;
    let mut k = at;
    while bits != 0 {
        out[k] = (from + (usize::trailing_zeros(bits) as usize)) as u32;
        k += 1;
        bits &= bits - 1;
    }
    k
}

// Puts four numbers into a buffer.
pub fn put_four(four: [u32; GROUP_BITS], out: &mut [u32], at: usize)
    requires { at + 4 ≤ length out.old }
    ensures { out.new ≡ sets out.old at four }
{
    out[at] = four[0];
    out[at + 1] = four[1];
    out[at + 2] = four[2];
    out[at + 3] = four[3];
}

// Puts the steps of a group into a buffer from a place on, and gives the place after them. Four places are stored, whatever their number is,
// so that no branch waits for a bit: those after the steps are left with anything.
fn put_group(group: usize, from: usize, out: &mut [u32], at: usize) -> usize
    requires { (group < group_values) × ((from + 256 ≤ 2 ^ 32) × (at + group_bits ≤ length out.old)) }
    ensures { PutsLoose out.old at (bits_from group_bits from group) out.new result }
{
    let found = &GROUPS[group];
    let steps = [
        (from + usize::from(found.places[0])) as u32,
        (from + usize::from(found.places[1])) as u32,
        (from + usize::from(found.places[2])) as u32,
        (from + usize::from(found.places[3])) as u32,
    ];
    put_four(steps, out, at);
    at + (found.count as usize)
}

// Puts the steps of a word into a buffer from a place on, group by group, and gives the place after them. The four places after them are left
// with anything.
fn put_groups(word: usize, from: usize, out: &mut [u32], at: usize) -> usize
    requires { (from < 2 ^ 31) × (at + length (bits_from word_bits from word) + group_bits ≤ length out.old) }
    ensures { PutsLoose out.old at (bits_from word_bits from word) out.new result }
{
    let mut bits = word;
    let mut k = at;
    for j in (0..WORD_BITS).step_by(GROUP_BITS) {
        k = put_group(bits % GROUP_VALUES, from + j, out, k);
        bits /= GROUP_VALUES;
    }
    k
}

// Puts the steps of a word into a buffer from a place on, group by group, and gives the place after them. What stands in the four places after
// them is put back.
fn put_many(word: usize, from: usize, out: &mut [u32], at: usize) -> usize
    requires { (from < 2 ^ 31) × (at + length (bits_from word_bits from word) + group_bits ≤ length out.old) }
    ensures { Puts out.old at (bits_from word_bits from word) out.new result }
{
    let end = at + row::ones(word);
    let after = [out[end], out[end + 1], out[end + 2], out[end + 3]];
    let k = put_groups(word, from, out, at);
    put_four(after, out, k);
    k
}

// Puts the steps of a word into a buffer, by groups where they and the four places after them are in reach, else one by one.
fn put_dense(word: usize, from: usize, out: &mut [u32], at: usize) -> usize
    requires { (beyond from (bits_from word_bits from word) ≤ 2 ^ 32) × (at + length (bits_from word_bits from word) ≤ length out.old) }
    ensures { Puts out.old at (bits_from word_bits from word) out.new result }
{
    if from < NEAR {
        if row::ones(word) + GROUP_BITS <= out.len() - at {
            return put_many(word, from, out, at);
        }
    }
    put_ones(word, from, out, at)
}

// Puts the steps of a word into a buffer where it has all ones or few, which no table makes faster; else it stores nothing.
fn put_plain(word: usize, from: usize, out: &mut [u32], at: usize) -> Option<usize>
    requires { (beyond from (bits_from word_bits from word) ≤ 2 ^ 32) × (at + length (bits_from word_bits from word) ≤ length out.old) }
    ensures { MatchOption result (out.new ≡ out.old) (λ k. Puts out.old at (bits_from word_bits from word) out.new k) }
{
    if word == FULL {
        return Some(put_full(from, out, at));
    }
    if row::ones(word) < MANY {
        return Some(put_ones(word, from, out, at));
    }
    None
}

// Puts the steps of a word into a buffer, by the way that is the fastest for as many ones as it has.
pub fn put_word(word: usize, from: usize, out: &mut [u32], at: usize) -> usize
    requires { (beyond from (bits_from word_bits from word) ≤ 2 ^ 32) × (at + length (bits_from word_bits from word) ≤ length out.old) }
    ensures { Puts out.old at (bits_from word_bits from word) out.new result }
{
    match put_plain(word, from, out, at) {
        Some(k) => k,
        None => put_dense(word, from, out, at),
    }
}

// Puts the steps of a word into a buffer, by the way that is the fastest for as many ones as it has. The four places after them are left
// with anything.
pub fn put_loose(word: usize, from: usize, out: &mut [u32], at: usize) -> usize
    requires { (from < 2 ^ 31) × (at + length (bits_from word_bits from word) + group_bits ≤ length out.old) }
    ensures { PutsLoose out.old at (bits_from word_bits from word) out.new result }
{
    match put_plain(word, from, out, at) {
        Some(k) => k,
        None => put_groups(word, from, out, at),
    }
}
