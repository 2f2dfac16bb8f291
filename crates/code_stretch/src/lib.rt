// Many codes passed at once, without looking where each begins: what a byte adds to the value of its code depends on the byte and the next three
// alone, so the bytes of a stretch are added up as they come.

#![tactic(auto)]

ghost use Rattle.std.specs.Prelude.{◌≡◌, ◌+◌, ◌-◌, ◌*◌, ◌≤◌, ◌<◌, length, get_or, true, IfSome};
ghost use Rattle.code.specs.Code.{one_group, two_groups, three_groups, flag};
ghost use Rattle.code_stretch.specs.Inside.Bytewise.{stretch, Shares, Added};
ghost use Rattle.code_stretch.specs.Runs.{reach, Passed};

// Free: measured; the proofs know it as `stretch`. Bytes that are added up at once.
const STRETCH: usize = 64;

// Free: it follows from the stretch, the proofs know it as `reach`. Bytes that have to be there to pass one: the last code may go on in three
// more, and what a byte says depends on the next three.
pub const REACH: usize = 70;

// Document 01: how much more a group is worth where one byte follows it in its code than where none does.
const SECOND: usize = 127;

// Document 01: how much more it is worth where two follow than where one does.
const THIRD: usize = 16256;

// Document 01: how much more it is worth where three follow than where two do.
const FOURTH: usize = 2080768;

// What a byte and the next three say of it: the shares of what it adds to its code's value, whether a code ends with it, whether
// something is wrong.
// Kept: flags as numbers are no less plain, since they are added up over a stretch and tested once.
#[derive(Clone, Copy)]
struct Share {
    low: u8,
    second: u8,
    third: u8,
    fourth: u8,
    ends: u8,
    flaws: u8,
}

// What the bytes of a part add up to.
#[derive(Clone, Copy)]
struct Sums {
    value: usize,
    ends: usize,
    flaws: usize,
}

// Codes that are passed at once: how many, the sum of their values, and the place after them.
#[derive(Clone, Copy)]
pub struct Stretch {
    pub count: usize,
    pub value: usize,
    pub after: usize,
}

// 1 where a code ends with a byte and the next starts with 80 hex.
fn padded(ends: u8, b: u8) -> u8
    requires { ends < 2 }
    ensures { (result ≤ ends) × ((b ≡ flag → result ≡ ends) × ((b ≡ flag → ⊥) → result ≡ 0)) }
{
    if b == code::HIGH {
        return ends;
    }
    0
}

// What a byte and the next three say of it.
fn weigh(a: u8, b: u8, c: u8, d: u8) -> Share
    ensures { Shares a b c d result.low result.second result.third result.fourth result.ends result.flaws }
{
    let low = a % code::HIGH;
    let second = code::kept(a, low);
    let third = code::kept(b, second);
    let fourth = code::kept(c, third);
    let ends = 1 - a / code::HIGH;
    let long = code::kept(a, code::kept(b, code::kept(c, code::kept(d, 1))));
    Share {
        low,
        second,
        third,
        fourth,
        ends,
        flaws: long + padded(ends, b),
    }
}

// The sum of weights that has these shares.
fn joined(low: u16, second: u16, third: u16, fourth: u16) -> usize
    ensures { result ≡ low + (one_group - 1) * second + (two_groups - one_group) * third + (three_groups - two_groups) * fourth }
{
    low as usize
        + SECOND * (second as usize)
        + THIRD * (third as usize)
        + FOURTH * (fourth as usize)
}

// Adds up what the bytes from `at` to before `upto` say. The sums are of sixteen bits, so that eight are counted at once.
fn tally(s: &[u8], at: usize, upto: usize) -> Sums
    requires { (at ≤ upto) × ((upto ≤ at + stretch) × (upto + 3 ≤ length s.now)) }
    ensures { Added s.now at upto result.value result.ends result.flaws }
{
    let mut low: u16 = 0;
    let mut second: u16 = 0;
    let mut third: u16 = 0;
    let mut fourth: u16 = 0;
    let mut ends: u16 = 0;
    let mut flaws: u16 = 0;
    for i in at..upto {
        let x = weigh(s[i], s[i + 1], s[i + 2], s[i + 3]);
        low += x.low as u16;
        second += x.second as u16;
        third += x.third as u16;
        fourth += x.fourth as u16;
        ends += x.ends as u16;
        flaws += x.flaws as u16;
    }
    Sums {
        value: joined(low, second, third, fourth),
        ends: ends as usize,
        flaws: flaws as usize,
    }
}

// The place after a code that began before a place: that place itself, or one of the next three, if the code is not too long.
fn closing(s: &[u8], at: usize) -> usize
    requires { (0 < at) × (at + 3 ≤ length s.now) }
    ensures { (at ≤ result) × (result ≤ at + 3) }
{
    if s[at - 1] < code::HIGH {
        return at;
    }
    if s[at] < code::HIGH {
        return at + 1;
    }
    if s[at + 1] < code::HIGH {
        return at + 2;
    }
    at + 3
}

// Whether a part starts as a code may and ends as one does.
fn framed(s: &[u8], at: usize, end: usize) -> bool
    requires { (at < end) × (end ≤ length s.now) }
    ensures { result ≡ true → (get_or s.now at 0 ≡ flag → ⊥) × (get_or s.now (end - 1) 0 < flag) }
{
    s[at] != code::HIGH && s[end - 1] < code::HIGH
}

// Passes the codes of a stretch, of any sizes, from the first byte of a code on, or none where something is wrong.
fn pass_mixed(s: &[u8], at: usize) -> Option<Stretch>
    requires { at + reach ≤ length s.now }
    ensures { IfSome result (λ t. (at < t.after) × Passed s.now at t.after t.count t.value) }
{
    let upto = at + STRETCH;
    let end = closing(s, upto);
    let most = tally(s, at, upto);
    let rest = tally(s, upto, end);
    if most.flaws + rest.flaws == 0 && framed(s, at, end) {
        return Some(Stretch {
            count: most.ends + rest.ends,
            value: most.value + rest.value,
            after: end,
        });
    }
    None
}

// The sum of a stretch's bytes where each is a code by itself.
fn singles(s: &[u8], at: usize) -> Option<usize>
    requires { at + stretch ≤ length s.now }
    ensures { IfSome result (Passed s.now at (at + stretch) stretch) }
{
    let mut value: u16 = 0;
    let mut largest: u8 = 0;
    for &a in &s[at..at + STRETCH] {
        value += a as u16;
        largest = largest.max(a);
    }
    if largest < code::HIGH {
        return Some(value as usize);
    }
    None
}

// Passes many codes at once, from the first byte of a code on, in less time where each is a single byte. Where something is wrong, or too few
// bytes are left, it passes none, and the codes have to be read one by one.
pub fn pass(s: &[u8], at: usize) -> Option<Stretch>
    requires { at ≤ length s.now }
    ensures { IfSome result (λ t. (at < t.after) × Passed s.now at t.after t.count t.value) }
{
    if s.len() - at < REACH {
        return None;
    }
    if let Some(value) = singles(s, at) {
        return Some(Stretch {
            count: STRETCH,
            value,
            after: at + STRETCH,
        });
    }
    pass_mixed(s, at)
}
