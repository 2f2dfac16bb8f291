// From a list of steps to its shortest image: the tests of the list, the plan of its best cut, and the blocks that the plan says, each with
// its part of the payload and its entry. The planner leaves a word for each block in the work area: at i for the block that begins at rank i.

#![tactic(auto)]

ghost use Rattle.std.specs.Prelude.{◌≡◌, ◌++◌, ◌+◌, ◌^◌, ◌≤◌, ◌<◌, length, drop};
ghost use Rattle.std.proofs.lemmas.List.Edits.{sets};
ghost use Rattle.lists.specs.Stores.{Puts};
ghost use Rattle.rules.specs.Sizes.{entry_size, work_for};
ghost use Rattle.rules.specs.Listed.{Listed};
ghost use Rattle.image.specs.Entry.{entry_bytes, payload_place};
ghost use Rattle.image.specs.Grammar.{part_of, payload_of};
ghost use Rattle.plan.specs.Planned.{cut_of};
ghost use Rattle.write.specs.Written.{image_for};
ghost use Rattle.write.specs.Inside.Blocks.{block_at, Within, Laid, Marks, Filled};
ghost use Rattle.write.specs.Promise.{Promise};

use image::Entry;
use plan::Word;
use rules::Refusal;

// What writing a list, or a pair of images, leaves: the number of steps and the length of the image.
#[derive(Clone, Copy)]
pub struct Counted {
    pub steps: u32,
    pub bytes: u32,
}

// Puts an entry into bytes at a place.
fn put_entry(out: &mut [u8], at: usize, e: Entry)
    requires { (at + entry_size ≤ length out.old) × (e.kind ≤ 1) }
    ensures { out.new ≡ sets out.old at (entry_bytes e) }
{
    out[at] = e.kind as u8;
    rules::put_number(out, at + 1, e.last);
    rules::put_number(out, at + 5, e.upto);
    rules::put_number(out, at + 9, e.end);
}

// Puts the part of the block that begins at rank i, and that the word says, into bytes from a place on, and gives the place after it.
fn put_part(list: &[u32], i: usize, word: Word, out: &mut [u8], at: usize) -> usize
    requires { Within list.now i word.number × (at + length (part_of list.now i (block_at word.number)) ≤ length out.old) }
    ensures { Puts out.old at (part_of list.now i (block_at word.number)) out.new result }
{
    let upto = word.upto();
    let steps = &list[i..upto];
    let from = plan::past_at(list, i);
    if word.kind() == rules::CODES {
        return codes_write::put(steps, from, out, at);
    }
    row_write::put(steps, from, out, at)
}

// Puts the part of the block that begins at rank i, and that the word says, at p and its entry at `at`, and gives the place after the part; the
// payload begins at `base`.
fn put_block(
    list: &[u32],
    i: usize,
    word: Word,
    base: usize,
    out: &mut [u8],
    at: usize,
    p: usize,
) -> usize
    requires within { Within list.now i word.number × (at + entry_size ≤ length out.old) × (base ≤ p) }
    requires word_in_bounds { p + length (part_of list.now i (block_at word.number)) ≤ length out.old }
    ensures { Laid list.now i word.number base out.old at p out.new result }
{
    let next = put_part(list, i, word, out, p);
    let upto = word.upto();
    let e = Entry {
        kind: word.kind(),
        last: list[upto - 1] as usize,
        upto,
        end: next - base,
    };
    put_entry(out, at, e);
    next
}

// Puts the entries and the payload of the planned cut, which has m blocks, at their places, and gives the place after the payload.
fn put_blocks(list: &[u32], work: &[u32], m: usize, out: &mut [u8]) -> usize
    requires marks { Marks list.now work.now × (m ≡ length (cut_of list.now)) }
    requires list_in_bounds { payload_place m + length (payload_of list.now 0 (cut_of list.now)) ≤ length out.old }
    ensures { Filled list.now m out.old out.new result }
{
    let base = rules::NUMBER_SIZE + rules::ENTRY_SIZE * m + rules::NUMBER_SIZE;
    let mut i: usize = 0;
    let mut at = rules::NUMBER_SIZE;
    let mut p = base;
    // Kept: a turn goes on where its block ends, so that no range counts the turns.
    while i < list.len() {
        let word = Word { number: work[i] };
        p = put_block(list, i, word, base, out, at, p);
        at += rules::ENTRY_SIZE;
        i = word.upto();
    }
    p
}

// Puts the image of the planned cut, which has m blocks, at the front of the output.
fn put_image(list: &[u32], work: &[u32], m: usize, out: &mut [u8])
    requires { Marks list.now work.now × (m ≡ length (cut_of list.now)) × (length (image_for list.now) ≤ length out.old) }
    ensures { out.new ≡ sets out.old 0 (image_for list.now) }
{
    rules::put_number(out, 0, m);
    let end = put_blocks(list, work, m, out);
    let at = rules::NUMBER_SIZE + rules::ENTRY_SIZE * m;
    rules::put_number(out, at, end - at - rules::NUMBER_SIZE);
}

// Writes the shortest image of a list that stands the tests, with a work area that is long enough, to the front of the output.
pub fn write_listed(list: &[u32], work: &mut [u32], out: &mut [u8]) -> Result<Counted, Refusal>
    requires { Listed list.now × (work_for (length list.now) ≤ length work.old) }
    ensures { Promise list.now work.old out.old result work.new out.new }
{
    let n = list.len();
    let totals = plan::plan(list, work);
    let bytes = 2 * rules::NUMBER_SIZE + totals.bytes;
    let answer = if bytes <= out.len() {
        put_image(list, work, totals.blocks, out);
        Ok(Counted {
            steps: n as u32,
            bytes: bytes as u32,
        })
    } else {
        Err(rules::refuse(rules::OUTPUT_TOO_SHORT, bytes as u32))
    };
    work[..rules::work_for(n)].fill(0);
    answer
}

// Writes the shortest image of a list to the front of the output.
pub fn write(list: &[u32], work: &mut [u32], out: &mut [u8]) -> Result<Counted, Refusal>
    ensures { Promise list.now work.old out.old result work.new out.new }
{
    write_list::test(list)?;
    let need = rules::work_for(list.len());
    if work.len() < need {
        return Err(rules::refuse(rules::WORK_TOO_SHORT, need as u32));
    }
    write_listed(list, work, out)
}
