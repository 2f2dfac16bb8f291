// A bit row: bit j stands for step o + j, in byte j div 8, the lowest bit first. How many ones it has, where the last one is, the k-th one
// of a byte, the step at an index, and the first step at or after another. Bytes are read one by one or by words.

#![tactic(auto)]

ghost use Rattle.std.specs.Prelude.{◌≡◌, ◌+◌, ◌-◌, ◌*◌, ◌/◌, ◌%◌, ◌^◌, ◌≤◌, ◌<◌, length, get_or, take, drop};
ghost use Rattle.lists.specs.Rising.{beyond};
ghost use Rattle.lists.specs.Below.{below};
ghost use Rattle.rules.specs.Numbers.{little};
ghost use Rattle.row.specs.Row.{bits_from, row_steps, row_size, kth_one};
ghost use Rattle.row.specs.Words.{word_bytes, word_bits};

// Document 01: the bits of a byte.
pub const BYTE_BITS: usize = 8;

// Document 01: the values of a byte.
pub const BYTE_VALUES: usize = 256;

// Free: as many as a processor loads at once; the proofs know it as `word_bytes`. A word is eight bytes that are read at once.
pub const WORD_BYTES: usize = 8;

// Free: it follows from the bytes of a word. The bits of a word.
pub const WORD_BITS: usize = 64;

// The word of eight bytes, the lowest first.
pub fn word_of(bytes: &[u8; WORD_BYTES]) -> usize
    ensures { result ≡ little bytes.now }
{
    usize::from_le_bytes(*bytes)
}

// The word of bytes that are fewer than eight.
pub fn last_word(s: &[u8]) -> usize
    requires { length s.now < word_bytes }
    ensures { result ≡ little s.now }
{
    let mut word: usize = 0;
    for byte in s.iter().rev() {
        word = usize::from(*byte) + BYTE_VALUES * word;
    }
    word
}

// The word of the first eight bytes, or of all where there are fewer.
pub fn word(s: &[u8]) -> usize
    ensures { result ≡ little (take word_bytes s.now) }
{
    match s.first_chunk() {
        Some(bytes) => word_of(bytes),
        None => last_word(s),
    }
}

// How many ones a word has.
pub fn ones(word: usize) -> usize
    ensures { (result ≡ length (bits_from word_bits 0 word)) × (result ≤ word_bits) }
{
    usize::count_ones(word) as usize
}

// How many ones some bytes have. The number of turns is known before the first, so that several words can be counted at once.
fn ones_in(part: &[u8]) -> usize
    requires { length part.now < 2 ^ 60 }
    ensures { result ≡ length (row_steps 0 part.now) }
{
    let (words, rest) = part.as_chunks();
    let mut total: usize = 0;
    for word in words {
        total += ones(word_of(word));
    }
    total + ones(last_word(rest))
}

// How many bytes a row of a span has.
pub fn width(span: usize) -> usize
    requires { span < 2 ^ 32 }
    ensures { result ≡ row_size span }
{
    (span + (BYTE_BITS - 1)) / BYTE_BITS
}

// How many ones a row has.
pub fn count(part: &[u8]) -> usize
    requires { length part.now < 2 ^ 32 }
    ensures { result ≡ length (row_steps 0 part.now) }
{
    ones_in(part)
}

// One past the last one of a row, in bits; 0 where there is none.
pub fn end(part: &[u8]) -> usize
    requires { length part.now < 2 ^ 32 }
    ensures { result ≡ beyond 0 (row_steps 0 part.now) }
{
    match part.iter().rposition(|byte| *byte != 0) {
        Some(i) => BYTE_BITS * (i + 1) - (part[i].leading_zeros() as usize),
        None => 0,
    }
}

// The place of the k-th one of a byte, counted from 0, or 8 where the byte has too few.
pub fn kth(byte: usize, k: usize) -> usize
    requires { (byte < 256) × (k < 8) }
    ensures { result ≡ kth_one byte k }
{
    let mut bits = byte;
    let mut left = k;
    for at in 0..BYTE_BITS {
        let bit = bits % 2;
        if left < bit {
            return at;
        }
        left -= bit;
        bits /= 2;
    }
    BYTE_BITS
}

// The byte with a one at a place.
pub fn one_at(place: usize) -> usize
    requires { place < 8 }
    ensures { (result ≡ 2 ^ place) × (result < 256) }
{
    1 << place
}

// The step at an index of a row, looked for byte by byte.
fn step_from(part: &[u8], from: usize, k: usize) -> usize
    requires { (from < 2 ^ 36) × ((length part.now < 2 ^ 32) × (k < length (row_steps from part.now))) }
    ensures { result ≡ get_or (row_steps from part.now) k 0 }
{
    let mut left = k;
    for (i, byte) in part.iter().enumerate() {
        let byte = usize::from(*byte);
        let n = ones(byte);
        if left < n {
            return from + BYTE_BITS * i + kth(byte, left);
        }
        left -= n;
    }
    0
}

// The step at an index of a row.
pub fn step_at(part: &[u8], from: usize, k: usize) -> usize
    requires { (from < 2 ^ 32) × ((length part.now < 2 ^ 32) × (k < length (row_steps from part.now))) }
    ensures { result ≡ get_or (row_steps from part.now) k 0 }
{
    let (words, rest) = part.as_chunks();
    let mut left = k;
    for (i, word) in words.iter().enumerate() {
        let n = ones(word_of(word));
        if left < n {
            return step_from(word, from + WORD_BITS * i, left);
        }
        left -= n;
    }
    step_from(rest, from + WORD_BITS * words.len(), left)
}

// How many ones of the byte that holds a place stand before it.
fn ones_under(part: &[u8], place: usize) -> usize
    requires { place < 8 * length part.now }
    ensures { (result ≡ length (bits_from (place % 8) 0 (get_or part.now (place / 8) 0))) × (result ≤ 64) }
{
    let low = one_at(place % BYTE_BITS) - 1;
    ones(usize::from(part[place / BYTE_BITS]) & low)
}

// How many steps of a row stand before the first at or after x, which lies within the row.
pub fn below_in(part: &[u8], from: usize, x: usize) -> usize
    requires { (from ≤ x) × ((x < from + 8 * length part.now) × (from + 8 * length part.now ≤ 2 ^ 40)) }
    ensures { result ≡ below (row_steps from part.now) x }
{
    let place = x - from;
    ones_in(&part[..place / BYTE_BITS]) + ones_under(part, place)
}

// The first step of a row at or after x, of which there is one: the row is read from x on.
pub fn first_at(part: &[u8], from: usize, x: usize) -> usize
    requires { (from ≤ x) × ((from < 2 ^ 32) × ((length part.now < 2 ^ 32)
        × (below (row_steps from part.now) x < length (row_steps from part.now)))) }
    ensures { result ≡ get_or (row_steps from part.now) (below (row_steps from part.now) x) 0 }
{
    let place = x - from;
    let at = place / BYTE_BITS;
    step_from(&part[at..], from + BYTE_BITS * at, ones_under(part, place))
}
