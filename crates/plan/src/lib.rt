// The shortest cut of a list of steps, found in time linear in its length and recorded in the work area.
//
// With P_i one past the step before rank i, F_i the fewest bytes of the blocks from rank i on, and C(i, j) the bytes of the codes of the steps
// from i up to j: a block of codes from i up to j and the rest have 13 + C(i, j) + F_j bytes, and a row has 13 + ⌈(Y_j − P_i) / 8⌉, where
// Y_j = 8·F_j + P_j. So going back from the end, two numbers are enough: the least of C(i, j) + F_j, and the least of Y_j, over all ends j; F_j
// itself is the lesser of the two blocks that they give. Which end the tie rule wants is asked only at the blocks that are written, going forward.

#![tactic(auto)]

ghost use Rattle.std.specs.Prelude.{◌≡◌, true, false, ◌+◌, ◌*◌, ◌/◌, ◌%◌, ◌<◌, ◌≤◌, length, get_or, set};
ghost use Rattle.lists.specs.Rising.{past};
ghost use Rattle.rules.specs.Limits.{most_steps};
ghost use Rattle.rules.specs.Sizes.{entry_size, work_for};
ghost use Rattle.rules.specs.Listed.{Listed};
ghost use Rattle.row.specs.Row.{row_size};
ghost use Rattle.plan.specs.Inside.Ahead.{most_ahead, turned, bytes_at, codes_at, row_at};
ghost use Rattle.plan.specs.Planned.{Planned, Marked, cut_of};
ghost use Rattle.plan.specs.Inside.Props.{Ready-prop};
ghost use Rattle.plan.specs.Inside.Work.{Kept, Sized, Ready, stride, Scanning, GoesOn, AllGoOn, CodesEnd, RowEnd, Chosen, Covered};

// Document 01: the bits of a byte, in the width of the work area's numbers.
// Kept: a `usize` becomes a `u32` by no `From`, and the cast of a constant is checked where it stands. So with the next.
const BYTE_BITS: u32 = row::BYTE_BITS as u32;

// Document 01: the bytes of an entry, in the width of the work area's numbers.
const ENTRY_SIZE: u32 = rules::ENTRY_SIZE as u32;

// Document 01: the bits of an entry's bytes.
const ENTRY_BITS: u32 = BYTE_BITS * ENTRY_SIZE;

// Document 01: what a row adds to its span before the bits are counted in bytes: its entry, and the most that pads it.
const ROW_BITS: u32 = ENTRY_BITS + (BYTE_BITS - 1);

// Free: measured; the proofs know it as `stride`. The ranks that a look for the end of a block passes at once.
const STRIDE: usize = 16;

// The totals of the best cut of a list: how many blocks it has, and their bytes, entries included.
#[derive(Clone, Copy)]
pub struct Totals {
    pub blocks: usize,
    pub bytes: usize,
}

// The word of a block, which stands in the work area: twice its upto, and its kind.
#[derive(Clone, Copy)]
pub struct Word {
    pub number: u32,
}

impl Word {
    // The word of a block that ends at a rank.
    fn new(upto: usize, kind: usize) -> Word
        requires { (upto ≤ most_steps) × (kind ≤ 1) }
        ensures { result.number ≡ 2 * upto + kind }
    {
        Word {
            number: (2 * upto + kind) as u32,
        }
    }

    // The rank at which the block ends.
    pub fn upto(self) -> usize
        ensures { result ≡ self.number / 2 }
    {
        (self.number / 2) as usize
    }

    // Its kind.
    pub fn kind(self) -> usize
        ensures { result ≡ self.number % 2 }
    {
        (self.number % 2) as usize
    }
}

// What a turn needs of the ranks after its own: the fewest bytes of what follows the code of its step in a block of codes; and the least Y_j,
// with the bits that a row adds.
#[derive(Clone, Copy)]
struct Turn {
    rest: u32,
    reach: u32,
}

// One past the step before rank i, or 0.
pub fn past_at(list: &[u32], i: usize) -> u32
    requires { Listed list.now × (i ≤ length list.now) }
    ensures { result ≡ past list.now i }
{
    if i == 0 { 0 } else { list[i - 1] + 1 }
}

// The bytes of a row.
fn row_size(span: u32) -> u32
    requires { span ≤ most_ahead + most_ahead }
    ensures { result ≡ row_size span }
{
    (span + (BYTE_BITS - 1)) / BYTE_BITS
}

// The next turn's numbers after that of a rank whose step is `from` at the least and which has `codes`, the least C(i, j) + F_j. What each
// needs of the others is little, so that a turn waits for the one before it as short as can be.
fn grow(turn: Turn, codes: u32, from: u32) -> Turn
    requires { (from ≤ turn.reach) × (codes ≤ most_ahead) × (from ≤ most_ahead) }
    ensures { result ≡ turned codes from turn }
{
    Turn {
        rest: codes.min((turn.reach - from) / BYTE_BITS),
        reach: turn
            .reach
            .min(BYTE_BITS * codes + (from + (ENTRY_BITS + ROW_BITS))),
    }
}

// Stores the size of each step's code in the work area: at n + i for rank i of n. No turn waits for another, so that several are stored at once.
fn sizes(list: &[u32], work: &mut [u32])
    requires { Listed list.now × (work_for (length list.now) ≤ length work.old) }
    ensures { Kept (length list.now) work.old work.new
        × Sized list.now work.new (length list.now) }
{
    let n = list.len();
    if n == 0 {
        return;
    }
    work[n] = code::size(list[0]) as u32;
    // Kept: a `from` that one turn of an `enumerate` hands to the next was tried, and such a loop is slower, since it is not vectorised.
    for i in 1..n {
        let from = list[i - 1] + 1;
        work[n + i] = code::size(list[i] - from) as u32;
    }
}

// Stores the two words of rank i of n: its reach at i, and at n + i, where the size of its code stands, that size with the rest; gives the latter.
fn keep(work: &mut [u32], n: usize, i: usize, reach: u32, rest: u32) -> u32
    requires { (i < n) × (work_for n ≤ length work.old) × (n ≤ most_steps) × (get_or work.old (n + i) 0 ≤ most_ahead) × (rest ≤ most_ahead) }
    ensures { (result ≡ get_or work.old (n + i) 0 + rest) × (work.new ≡ set (set work.old i reach) (n + i) result) }
{
    let codes = work[n + i] + rest;
    work[i] = reach;
    work[n + i] = codes;
    codes
}

// Going back from the end, stores at i the least Y_j and at n + i the least C(i, j) + F_j, over all j above i.
fn values(list: &[u32], work: &mut [u32])
    requires { Listed list.now × (work_for (length list.now) ≤ length work.old) × Sized list.now work.old (length list.now) }
    ensures { Kept (length list.now) work.old work.new × Ready list.now work.new 0 }
{
    let n = list.len();
    if n == 0 {
        return;
    }
    let mut turn = Turn {
        rest: 0,
        reach: list[n - 1] + (1 + ROW_BITS),
    };
    for i in (1..n).rev() {
        let codes = keep(work, n, i, turn.reach - ROW_BITS, turn.rest);
        turn = grow(turn, codes, list[i - 1] + 1);
    }
    keep(work, n, 0, turn.reach - ROW_BITS, turn.rest);
}

// The tail of a list from a rank on: the numbers ahead of that rank and of all later ones stand in the work area.
#[derive(Clone, Copy)]
struct Tail<'a> {
    list: &'a [u32],
    work: &'a [u32],
    rank: usize,
    ghost ready: { Ready list.now work.now rank } by { Ready-prop list.now work.now rank },
    ghost within: { rank < length list.now },
}

impl Tail<'_> {
    // The fewest bytes of a first block of codes with all the blocks after it, its entry aside.
    fn codes(&self) -> u32
        ensures { result ≡ codes_at self.now.list.now self.now.rank }
    {
        self.work[self.list.len() + self.rank]
    }

    // The fewest bytes of a first row with all the blocks after it, the row's entry aside.
    fn row(&self) -> u32
        ensures { result ≡ row_at self.now.list.now self.now.rank }
    {
        row_size(self.work[self.rank] - past_at(self.list, self.rank))
    }

    // The fewest bytes of its blocks.
    fn bytes(&self) -> u32
        ensures { result ≡ bytes_at self.now.list.now self.now.rank }
    {
        ENTRY_SIZE + self.codes().min(self.row())
    }

    // Whether a block of codes from its rank on ends at the later rank j: where a row from there on, with its entry, leads to fewer bytes than
    // codes do.
    fn ends_at(&self, j: usize) -> bool
        requires { (self.now.rank < j) × (j < length self.now.list.now) }
        ensures goes_on { result ≡ false → GoesOn self.now.list.now j }
        ensures ends { result ≡ true → GoesOn self.now.list.now j → ⊥ }
    {
        let row = (self.work[j] - (self.list[j - 1] + 1) + ROW_BITS) / BYTE_BITS;
        row < self.work[self.list.len() + j]
    }

    // Whether a block of codes ends at one of the ranks of a look from rank j on; no turn leaves the loop, so that several ranks are compared at
    // once.
    fn ends_within(&self, j: usize) -> bool
        requires { (self.now.rank < j) × (j + stride ≤ length self.now.list.now) }
        ensures { result ≡ false → AllGoOn self.now.list.now j (j + stride) }
    {
        let mut any = false;
        for k in j..j + STRIDE {
            if self.ends_at(k) {
                any = true;
            }
        }
        any
    }

    // A later rank up to which no block of codes ends.
    fn coded(&self) -> usize
        ensures { Scanning (GoesOn self.now.list.now) (length self.now.list.now) self.now.rank result }
    {
        let mut j = self.rank + 1;
        // Kept: where the last whole look ends is the answer too, which a `for` over a `step_by` would have to work out once more.
        while j + STRIDE <= self.list.len() {
            if self.ends_within(j) {
                return j;
            }
            j += STRIDE;
        }
        j
    }

    // The largest end that a best block of codes can have.
    fn codes_end(&self) -> usize
        ensures { CodesEnd self.now.list.now self.now.rank result }
    {
        for j in self.coded()..self.list.len() {
            if self.ends_at(j) {
                return j;
            }
        }
        self.list.len()
    }

    // A later rank up to which no rank reaches beyond `top`: a later one reaches no less, so that one look passes many.
    fn covered(&self, top: u32) -> usize
        ensures { Covered self.now.list.now self.now.rank top result }
    {
        let mut j = self.rank + 1;
        // Kept: as in `coded`.
        while j + STRIDE <= self.list.len() {
            if top < self.work[j + (STRIDE - 1)] {
                return j;
            }
            j += STRIDE;
        }
        j
    }

    // The largest end of a row that, with the rest, has no more than `r` bytes besides its entry.
    fn row_end(&self, r: u32) -> usize
        requires { r ≤ most_ahead }
        ensures { RowEnd self.now.list.now self.now.rank r result }
    {
        let top = past_at(self.list, self.rank) + BYTE_BITS * r;
        for j in self.covered(top)..self.list.len() {
            if top < self.work[j] {
                return j;
            }
        }
        self.list.len()
    }

    // The word of the first block of its best cut.
    fn choice(&self) -> Word
        ensures { Chosen self.now.list.now self.now.rank result.number }
    {
        let codes = self.codes();
        let row = self.row();
        if codes < row {
            return Word::new(self.codes_end(), rules::CODES);
        }
        let upto = self.row_end(row);
        if row < codes {
            return Word::new(upto, rules::ROW);
        }
        let other = self.codes_end();
        if other < upto {
            return Word::new(upto, rules::ROW);
        }
        Word::new(other, rules::CODES)
    }
}

// The fewest bytes of the blocks of a list.
fn fewest(list: &[u32], work: &[u32]) -> u32
    requires { Ready list.now work.now 0 }
    ensures { result ≡ bytes_at list.now 0 }
{
    if list.len() == 0 {
        return 0;
    }
    let all = Tail {
        list,
        work,
        rank: 0,
    };
    all.bytes()
}

// Going forward, puts the word of each block of the best cut at i, where the block begins at rank i; gives the number of blocks.
fn marks(list: &[u32], work: &mut [u32]) -> usize
    requires { Ready list.now work.old 0 }
    ensures { (result ≡ length (cut_of list.now))
        × Kept (length list.now) work.old work.new
        × Marked work.new 0 (cut_of list.now) }
{
    let mut blocks: usize = 0;
    let mut i: usize = 0;
    // Kept: a turn goes on where its block ends, so that no range counts the turns.
    while i < list.len() {
        let tail = Tail {
            list,
            work,
            rank: i,
        };
        let word = tail.choice();
        work[i] = word.number;
        i = word.upto();
        blocks += 1;
    }
    blocks
}

// Plans the best cut of a list in the work area.
pub fn plan(list: &[u32], work: &mut [u32]) -> Totals
    requires { Listed list.now × (work_for (length list.now) ≤ length work.old) }
    ensures { Planned list.now work.old work.new result }
{
    sizes(list, work);
    values(list, work);
    let bytes = fewest(list, work);
    let blocks = marks(list, work);
    Totals {
        blocks,
        bytes: bytes as usize,
    }
}
