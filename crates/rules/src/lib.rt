// What document 01 fixes once for all: the limits, the sizes of an image's parts, the refusals, and fixed-width numbers.

#![tactic(auto)]

ghost use Rattle.std.specs.Prelude.{◌≡◌, ◌+◌, ◌^◌, ◌≤◌, ◌<◌, length};
ghost use Rattle.std.proofs.lemmas.List.Edits.{sets};
ghost use Rattle.rules.specs.Limits.{largest_step, most_steps, no_step};
ghost use Rattle.rules.specs.Sizes.{work_for};
ghost use Rattle.rules.specs.Refusals.{refusal};
ghost use Rattle.rules.specs.Numbers.{number_at, number_bytes};

// Document 01: the largest step, and the largest number of steps of a list.
const LARGEST_STEP: u32 = 16777215;

const NO_STEP: usize = (LARGEST_STEP as usize) + 1;

const MOST_STEPS: usize = 1048576;

// Document 01: the numbers of work for a step, and as many more.
const WORK_SHARE: usize = 16;

// Document 01: the bytes of a fixed-width number and of an entry: kind, last, upto, end.
pub const NUMBER_SIZE: usize = 4;

pub const ENTRY_SIZE: usize = 13;

// Document 01: the kinds of a block.
pub const CODES: usize = 0;

pub const ROW: usize = 1;

// The refusals of document 01's table, in its order.
pub const TOO_FEW_BYTES: u32 = 1;

pub const BYTES_LEFT_OVER: u32 = 2;

pub const UNKNOWN_KIND: u32 = 3;

pub const BAD_LAST: u32 = 4;

pub const BAD_UPTO: u32 = 5;

pub const BAD_END: u32 = 6;

pub const BAD_CODE: u32 = 7;

pub const WRONG_COUNT: u32 = 8;

pub const WRONG_LAST: u32 = 9;

pub const BAD_ROW: u32 = 10;

pub const NOT_INCREASING: u32 = 11;

pub const STEP_TOO_LARGE: u32 = 12;

pub const TOO_MANY_STEPS: u32 = 13;

pub const WORK_TOO_SHORT: u32 = 14;

pub const OUTPUT_TOO_SHORT: u32 = 15;

pub const STEPS_TOO_SHORT: u32 = 16;

pub const RANK_TOO_LARGE: u32 = 17;

pub const NOT_IN_THE_YEAR: u32 = 18;

pub const NO_SUCH_CURSOR: u32 = 19;

// A refusal: its number, the image of a pair that it is about (1 or 2, else 0), and its place.
#[derive(Clone, Copy)]
pub struct Refusal {
    pub number: u32,
    pub side: u32,
    pub place: u32,
}

// The largest step.
pub fn largest_step() -> u32
    ensures { result ≡ largest_step }
{
    LARGEST_STEP
}

// One past the largest step, which stands for no step.
pub fn no_step() -> usize
    ensures { result ≡ no_step }
{
    NO_STEP
}

// The largest number of steps of a list.
pub fn most_steps() -> usize
    ensures { result ≡ most_steps }
{
    MOST_STEPS
}

// The numbers of work that n steps need.
pub fn work_for(n: usize) -> usize
    requires { n ≤ most_steps }
    ensures { result ≡ work_for n }
{
    WORK_SHARE * (n + 1)
}

// A refusal that is about no image of a pair.
pub fn refuse(number: u32, place: u32) -> Refusal
    ensures { result ≡ refusal number place }
{
    Refusal {
        number,
        side: 0,
        place,
    }
}

// The number of four bytes at a place.
pub fn number_at(s: &[u8], at: usize) -> usize
    requires { at + 4 ≤ length s.now }
    ensures { (result ≡ number_at s.now at) × (result < 2 ^ 32) }
{
    u32::from_le_bytes([s[at], s[at + 1], s[at + 2], s[at + 3]]) as usize
}

// Stores a number in four bytes at a place.
pub fn put_number(out: &mut [u8], at: usize, n: usize)
    requires { at + 4 ≤ length out.old }
    ensures { out.new ≡ sets out.old at (number_bytes n) }
{
    out[at..at + NUMBER_SIZE].copy_from_slice(&n.to_le_bytes()[..NUMBER_SIZE]);
}
