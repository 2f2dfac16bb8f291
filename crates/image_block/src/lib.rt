// One block in its own part of the payload: the number of its refusal, 7 to 10; and where it has none, its steps put into a buffer, its step at an
// index, and its first step at or after a bound. Codes are read code by code; a row by whole words and bytes, and then the k-th one of one byte.

#![tactic(auto)]

ghost use Rattle.std.specs.Prelude.{◌≡◌, ◌+◌, ◌-◌, ◌^◌, ◌≤◌, ◌<◌, length, get_or};
ghost use Rattle.lists.specs.Below.{below};
ghost use Rattle.lists.specs.Stores.{Puts};
ghost use Rattle.image.specs.Block.{block_of};
ghost use Rattle.image_block.specs.Block.{steps_in, number_of, Fitting, Sound, FirstIn};
ghost use Rattle.image_block.specs.Inside.Judged.{judged_number};

use codes::Indexed;
use image::{Before, Entry};

// A block: its part of the payload, what stands before it, and its entry. The three fit, as the directory was tested.
#[derive(Clone, Copy)]
pub struct Block<'a> {
    pub part: &'a [u8],
    pub before: Before,
    pub entry: Entry,
    pub ghost fits: { Fitting before entry part.now },
}

impl Block<'_> {
    // The number of the block's refusal, 8 or 9, or 0: it has `count` steps, and `next` is one past the last of them.
    fn judge(&self, count: usize, next: usize) -> u32
        ensures { result ≡ judged_number self.now.before self.now.entry count next }
    {
        if count != self.entry.upto - self.before.upto {
            return rules::WRONG_COUNT;
        }
        if next != self.entry.last + 1 {
            return rules::WRONG_LAST;
        }
        0
    }

    // The number of the first refusal of a block of codes, or 0.
    fn codes_number(&self) -> u32
        requires { self.now.entry.kind ≡ 0 }
        ensures { result ≡ number_of (block_of self.now.before self.now.entry self.now.part.now) }
    {
        match codes::check(self.part, self.before.next) {
            Ok(t) => self.judge(t.count, t.next),
            Err(_) => rules::BAD_CODE,
        }
    }

    // The number of the first refusal of a bit row, or 0.
    fn row_number(&self) -> u32
        requires { self.now.entry.kind ≡ 0 → ⊥ }
        ensures { result ≡ number_of (block_of self.now.before self.now.entry self.now.part.now) }
    {
        let span = self.entry.last + 1 - self.before.next;
        if self.part.len() != row::width(span) {
            return rules::BAD_ROW;
        }
        let end = row::end(self.part);
        if end > span {
            return rules::BAD_ROW;
        }
        self.judge(row::count(self.part), self.before.next + end)
    }

    // The number of the block's first refusal, or 0.
    pub fn number(&self) -> u32
        ensures { result ≡ number_of (block_of self.now.before self.now.entry self.now.part.now) }
    {
        if self.entry.kind == rules::CODES {
            return self.codes_number();
        }
        self.row_number()
    }

    // Puts the steps of the block into a buffer from a place on, and gives the place after them.
    pub fn put_steps(&self, out: &mut [u32], at: usize) -> usize
        requires { Sound self.now.before self.now.entry self.now.part.now
            × (at + length (steps_in self.now.before self.now.entry self.now.part.now) ≤ length out.old) }
        ensures { Puts out.old at (steps_in self.now.before self.now.entry self.now.part.now) out.new result }
    {
        let from = self.before.next;
        if self.entry.kind == rules::CODES {
            return codes::steps(self.part, from, out, at);
        }
        row_read::steps(self.part, from, out, at)
    }

    // The step at an index of the block.
    pub fn step_at(&self, k: usize) -> usize
        requires { Sound self.now.before self.now.entry self.now.part.now × (k < self.now.entry.upto - self.now.before.upto) }
        ensures { (result ≡ get_or (steps_in self.now.before self.now.entry self.now.part.now) k 0) × (result ≤ self.now.entry.last) }
    {
        let from = self.before.next;
        if self.entry.kind == rules::CODES {
            return codes::step_at(self.part, from, k);
        }
        row::step_at(self.part, from, k)
    }

    // How many steps of the block stand before the first at or after x, which its last step reaches.
    pub fn below(&self, x: usize) -> usize
        requires { Sound self.now.before self.now.entry self.now.part.now × (x ≤ self.now.entry.last) }
        ensures { (result ≡ below (steps_in self.now.before self.now.entry self.now.part.now) x)
            × (result < self.now.entry.upto - self.now.before.upto) }
    {
        let from = self.before.next;
        if x <= from {
            return 0;
        }
        if self.entry.kind == rules::CODES {
            return codes::below_in(self.part, from, x);
        }
        row::below_in(self.part, from, x)
    }

    // The first step of the block at or after x, which its last step reaches, with its index.
    pub fn first_at(&self, x: usize) -> Indexed
        requires { Sound self.now.before self.now.entry self.now.part.now × (x ≤ self.now.entry.last) }
        ensures { FirstIn self.now.before self.now.entry self.now.part.now x result.step result.index }
    {
        let from = self.before.next;
        if self.entry.kind == rules::CODES {
            return codes::first_in(self.part, from, x);
        }
        if x <= from {
            return Indexed {
                step: row::step_at(self.part, from, 0),
                index: 0,
            };
        }
        Indexed {
            step: row::first_at(self.part, from, x),
            index: row::below_in(self.part, from, x),
        }
    }
}
