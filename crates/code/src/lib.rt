// The variable-byte code of document 01: groups of seven bits, the highest first, each byte but the last with its high bit set, and the
// shortest form only. Its length, writing it, and reading it.

#![tactic(auto)]

ghost use Rattle.std.specs.Prelude.{◌≡◌, ◌+◌, ◌-◌, ◌*◌, ◌≤◌, ◌<◌, length, Ok, IfSome};
ghost use Rattle.lists.specs.Stores.{Puts};
ghost use Rattle.code.specs.Code.{one_group, two_groups, code_values, code_of, code_size, reading, read_at};
ghost use Rattle.code.specs.Code.Inside.{Reached};
ghost use Rattle.code.specs.Flagged.{kept};
ghost use Rattle.code.specs.Fronts.{Brief};

// Document 01: the values of a group of seven bits. The numbers below have codes of one byte.
pub const ONE_GROUP: u32 = 128;

// Document 01: the values of two groups. The numbers below have codes of one byte or two.
const TWO_GROUPS: u32 = 16384;

// Document 01: the values of three groups. The numbers below have codes of at most three bytes.
const THREE_GROUPS: u32 = 2097152;

// Document 01: the high bit of a byte, as a number to reckon with.
const FLAG: u32 = 128;

// Document 01: the high bit of a byte, as a byte.
pub const HIGH: u8 = 128;

// Why no code stands at a place: its first byte is 80 hex, its fourth has the high bit, or the bytes end inside it.
#[derive(Clone, Copy, Debug, PartialEq, Eq)]
pub enum Flaw {
    Padded,
    Long,
    Cut,
}

// What is read at a place: the value of the code that stands there, and the place after it.
#[derive(Clone, Copy)]
pub struct Reading {
    pub value: u32,
    pub next: usize,
}

// What two bytes say of the code that begins with the first: its value, 1 where the second belongs to it, and 1 where it goes on after that, so
// that the value is not all of it.
// Kept: an `Option` here would be no plainer, since two codes are read at once and both are tested by one sum of `more`.
#[derive(Clone, Copy)]
pub struct Front {
    pub value: usize,
    pub extra: usize,
    pub more: usize,
}

// How many bytes the code of x has.
pub fn size(x: u32) -> usize
    requires { x < code_values }
    ensures { result ≡ code_size x }
{
    if x < ONE_GROUP {
        return 1;
    }
    if x < TWO_GROUPS {
        return 2;
    }
    if x < THREE_GROUPS {
        return 3;
    }
    4
}

// Stores a code of one or two bytes. Which of them it is comes by chance, so there is no test for it: the last byte takes the place of the
// first where there is only one.
fn put_short(out: &mut [u8], at: usize, x: u32) -> usize
    requires { (x < two_groups) × (at + code_size x ≤ length out.old) }
    ensures { Puts out.old at (code_of x) out.new result }
{
    let high = x / ONE_GROUP;
    let last = at + usize::from(high != 0);
    out[at] = (high + FLAG) as u8;
    out[last] = (x % ONE_GROUP) as u8;
    last + 1
}

// Stores the code of x at a place, and gives the place after it.
pub fn put(out: &mut [u8], at: usize, x: u32) -> usize
    requires { (x < code_values) × (at + code_size x ≤ length out.old) }
    ensures { Puts out.old at (code_of x) out.new result }
{
    if x < TWO_GROUPS {
        return put_short(out, at, x);
    }
    if x < THREE_GROUPS {
        out[at] = (x / TWO_GROUPS + FLAG) as u8;
        out[at + 1] = (x / ONE_GROUP % ONE_GROUP + FLAG) as u8;
        out[at + 2] = (x % ONE_GROUP) as u8;
        return at + 3;
    }
    out[at] = (x / THREE_GROUPS + FLAG) as u8;
    out[at + 1] = (x / TWO_GROUPS % ONE_GROUP + FLAG) as u8;
    out[at + 2] = (x / ONE_GROUP % ONE_GROUP + FLAG) as u8;
    out[at + 3] = (x % ONE_GROUP) as u8;
    at + 4
}

// The value of the code at the front of a part where that code is a single byte.
#[tactic(auto, using(crate::proofs::Fronts::read_single))]
pub fn single(s: &[u8]) -> Option<usize>
    ensures { IfSome result (λ x. (x < code_values) × (read_at s.now 0 ≡ Ok (reading x 1))) }
{
    match s {
        [first, ..] if *first < HIGH => Some(*first as usize),
        _ => None,
    }
}

// The value of the code at the front of a part where that code has two bytes.
#[tactic(auto, using(crate::proofs::Fronts::read_double))]
pub fn double(s: &[u8]) -> Option<usize>
    ensures { IfSome result (λ x. (x < code_values) × (read_at s.now 0 ≡ Ok (reading x 2))) }
{
    match s {
        [first, second, ..] if HIGH < *first && *second < HIGH => {
            Some(((*first - HIGH) as usize) * (ONE_GROUP as usize) + (*second as usize))
        }
        _ => None,
    }
}

// The code that begins with the byte a, and goes on with b if it goes on, where it has one byte or two and does not fail. Which of them it is
// comes by chance, so there is no test for it: both values are made, and one is taken.
pub fn short(a: u8, b: u8) -> Front
    ensures { Brief a b result.value result.extra result.more }
{
    let first = u32::from(a);
    let second = u32::from(b);
    let flagged = first / FLAG;
    let two = first % ONE_GROUP * ONE_GROUP + second;
    Front {
        value: (if flagged == 0 { first } else { two }) as usize,
        extra: flagged as usize,
        more: kept(a, kept(b, 1)) as usize,
    }
}

// Reads on at a place after the first two bytes of a code, which have the high bit and are worth `high`.
fn read_long(s: &[u8], at: usize, high: u32) -> Result<Reading, Flaw>
    requires { (high < two_groups) × ((at + 2 ≤ length s.now) × Reached s.now at 1 (at + 2) high) }
    ensures { result ≡ read_at s.now at }
{
    let left = s.len() - at;
    if left <= 2 {
        return Err(Flaw::Cut);
    }
    let third = u32::from(s[at + 2]);
    let higher = high * ONE_GROUP;
    if third < FLAG {
        return Ok(Reading {
            value: higher + third,
            next: at + 3,
        });
    }
    if left <= 3 {
        return Err(Flaw::Cut);
    }
    let fourth = u32::from(s[at + 3]);
    let highest = (higher + (third - FLAG)) * ONE_GROUP;
    if fourth < FLAG {
        return Ok(Reading {
            value: highest + fourth,
            next: at + 4,
        });
    }
    Err(Flaw::Long)
}

// Reads the code at a place of a part.
pub fn read(s: &[u8], at: usize) -> Result<Reading, Flaw>
    ensures { result ≡ read_at s.now at }
{
    let n = s.len();
    if n <= at {
        return Err(Flaw::Cut);
    }
    let first = u32::from(s[at]);
    if first < FLAG {
        return Ok(Reading {
            value: first,
            next: at + 1,
        });
    }
    if first == FLAG {
        return Err(Flaw::Padded);
    }
    if n - at <= 1 {
        return Err(Flaw::Cut);
    }
    let second = u32::from(s[at + 1]);
    let high = (first - FLAG) * ONE_GROUP;
    if second < FLAG {
        return Ok(Reading {
            value: high + second,
            next: at + 2,
        });
    }
    read_long(s, at, high + (second - FLAG))
}

// A number of seven bits where a byte has the high bit, else 0. A product, since a test would become a branch.
pub fn kept(b: u8, x: u8) -> u8
    requires { x < one_group }
    ensures { (result ≡ kept b x) × (result ≤ x) }
{
    x * (b / HIGH)
}
