// The directory of an image: the two counts, the entries in turn with refusals 1 to 6, and the search along the entries for the first that answers
// a question. Of the payload it hands out parts and looks into none.

#![tactic(auto)]

ghost use Rattle.std.specs.Prelude.{◌≡◌, ◌+◌, ◌^◌, ◌≤◌, ◌<◌, length};
ghost use Rattle.rules.specs.Sizes.{entry_size};
ghost use Rattle.rules.specs.Numbers.{number_at};
ghost use Rattle.image.specs.Entry.{entry_place, payload_place, entry_at, entries_at, start, before_at, Narrow};
ghost use Rattle.image.specs.Verdict.{fault_of, directory_of, opening_of};
ghost use Rattle.image.specs.Taken.{payload_in};
ghost use Rattle.image_directory.specs.Search.{passes, spot_in};
ghost use Rattle.image_directory.specs.Part.{part_in, Within};

use image::{Before, Entry};
use rules::Refusal;

// What is asked of the directory: where the step of a rank is, or where the first step at or after a bound is.
// Kept: a closure in its place would need a test of the specification beside it, for `spot_in` to tell what it finds.
#[derive(Clone, Copy)]
pub enum Question {
    Rank(usize),
    Bound(usize),
}

impl Question {
    // Whether the answer is in the block of an entry, if it is in none before it.
    fn answers(self, e: Entry) -> bool
        ensures { result ≡ passes self e }
    {
        match self {
            Question::Rank(k) => k < e.upto,
            Question::Bound(x) => x <= e.last,
        }
    }
}

// Where the directory says that an answer is: the entry of a block, and what stands before it.
#[derive(Clone, Copy)]
pub struct Spot {
    pub before: Before,
    pub entry: Entry,
}

// The number of an entry's first refusal, or 0: p is the payload's length.
fn fault_of(p: usize, b: Before, e: Entry) -> u32
    ensures { result ≡ fault_of p b e }
{
    if e.kind > rules::ROW {
        return rules::UNKNOWN_KIND;
    }
    if e.last > (rules::largest_step() as usize) {
        return rules::BAD_LAST;
    }
    if e.last < b.next {
        return rules::BAD_LAST;
    }
    if e.upto <= b.upto {
        return rules::BAD_UPTO;
    }
    if e.upto > rules::most_steps() {
        return rules::BAD_UPTO;
    }
    if e.end <= b.end {
        return rules::BAD_END;
    }
    if e.end > p {
        return rules::BAD_END;
    }
    0
}

// The entry with a number.
pub fn entry(image: &[u8], i: usize) -> Entry
    requires { entry_place i + entry_size ≤ length image.now }
    ensures { (result ≡ entry_at image.now (entry_place i)) × Narrow result }
{
    image::entry_at(image, rules::NUMBER_SIZE + rules::ENTRY_SIZE * i)
}

// What stands before the block with a number.
pub fn before(image: &[u8], i: usize) -> Before
    requires { entry_place i ≤ length image.now }
    ensures { result ≡ before_at image.now i }
{
    if i == 0 {
        return image::start();
    }
    image::after(entry(image, i - 1))
}

// The entries in turn, and the closing test.
fn entries(image: &[u8], m: usize, p: usize) -> Result<(), Refusal>
    requires { (m < 2 ^ 32) × (entry_place m ≤ length image.now) }
    ensures { result ≡ directory_of p start 0 (entries_at m image.now (entry_place 0)) }
{
    let mut b = image::start();
    for i in 0..m {
        let e = entry(image, i);
        let n = fault_of(p, b, e);
        if n != 0 {
            return Err(rules::refuse(n, i as u32));
        }
        b = image::after(e);
    }
    if b.end == p {
        return Ok(());
    }
    Err(rules::refuse(rules::BAD_END, m as u32))
}

// Tests the counts and the directory: the number of blocks, or the first refusal.
pub fn check(image: &[u8]) -> Result<usize, Refusal>
    ensures { result ≡ opening_of image.now }
{
    let n = image.len();
    if n < rules::NUMBER_SIZE {
        return Err(rules::refuse(rules::TOO_FEW_BYTES, 0));
    }
    let m = rules::number_at(image, 0);
    let count = rules::NUMBER_SIZE + rules::ENTRY_SIZE * m;
    let from = count + rules::NUMBER_SIZE;
    if n < from {
        return Err(rules::refuse(rules::TOO_FEW_BYTES, 0));
    }
    let p = rules::number_at(image, count);
    if n < from + p {
        return Err(rules::refuse(rules::TOO_FEW_BYTES, 0));
    }
    if from + p < n {
        return Err(rules::refuse(rules::BYTES_LEFT_OVER, 0));
    }
    entries(image, m, p)?;
    Ok(m)
}

// The payload of an image.
pub fn payload(image: &[u8]) -> &[u8]
    requires { payload_place (number_at image.now 0) ≤ length image.now }
    ensures { result.now ≡ payload_in image.now }
{
    let m = rules::number_at(image, 0);
    let from = rules::NUMBER_SIZE + rules::ENTRY_SIZE * m + rules::NUMBER_SIZE;
    &image[from..]
}

// A block's part of the payload.
pub fn part(image: &[u8], b: Before, e: Entry) -> &[u8]
    requires { Within image.now b e }
    ensures { result.now ≡ part_in image.now b e }
{
    let pay = payload(image);
    &pay[b.end..e.end]
}

// The first block that has the answer to a question.
#[tactic(auto, using(crate::proofs::Seeking::seeking_here, crate::proofs::Seeking::seeking_past))]
pub fn find(image: &[u8], q: Question) -> Option<Spot>
    requires { entry_place (number_at image.now 0) ≤ length image.now }
    ensures { result ≡ spot_in q image.now }
{
    let m = rules::number_at(image, 0);
    let mut b = image::start();
    for i in 0..m {
        let e = entry(image, i);
        if q.answers(e) {
            return Some(Spot {
                before: b,
                entry: e,
            });
        }
        b = image::after(e);
    }
    None
}
