// What the block lister tells of an image: how much it holds, and a line for each block.

#![tactic(auto)]

ghost use Rattle.std.specs.Prelude.{◌≡◌, ◌<◌, Some};
ghost use Rattle.rules.specs.Numbers.{number_at};
ghost use Rattle.image.specs.Verdict.{verdict};
ghost use Rattle.image.specs.Taken.{Takes};
ghost use Rattle.blocks_lines.specs.Listing.{paper_of, contents_promise, line_at};
ghost use Rattle.blocks_lines.specs.Shown.{word_of, shown};

use image_block::Block;
use rules::Refusal;
use std::fmt;

// The first line: blocks, steps, and bytes of the image.
#[derive(Clone, Copy)]
pub struct Contents {
    pub blocks: usize,
    pub steps: usize,
    pub bytes: usize,
}

// The line of a block: its number, kind, first step, last step, steps and payload bytes.
#[derive(Clone, Copy)]
pub struct Line {
    pub number: usize,
    pub kind: usize,
    pub first: usize,
    pub last: usize,
    pub steps: usize,
    pub bytes: usize,
}

// The word of a kind of block, with a space before it.
fn word_of(kind: usize) -> &'static str
    ensures { result.now ≡ word_of kind }
{
    if kind == rules::CODES {
        " vbyte"
    } else {
        " bits"
    }
}

impl fmt::Display for Line {
    ghost output = { λ l. Some (shown l) };

    fn fmt<W: fmt::Write>(&self, f: &mut fmt::Formatter<W>) -> fmt::Result {
        let word = word_of(self.kind);
        write!(
            f,
            "{}{word} {} {} {} {}",
            self.number, self.first, self.last, self.steps, self.bytes
        )
    }
}

// What the image holds, or the refusal of the check.
pub fn contents_of(image: &[u8]) -> Result<Contents, Refusal>
    ensures { paper_of result ≡ contents_promise image.now }
{
    let steps = read::check(image)?;
    Ok(Contents {
        blocks: rules::number_at(image, 0),
        steps: steps as usize,
        bytes: image.len(),
    })
}

// The line of a block of an image that is accepted.
pub fn line_at(image: &[u8], i: usize) -> Line
    requires { Takes (verdict image.now) × (i < number_at image.now 0) }
    ensures { result ≡ line_at image.now i }
{
    let b = image_directory::before(image, i);
    let e = image_directory::entry(image, i);
    let part = image_directory::part(image, b, e);
    let block = Block {
        part,
        before: b,
        entry: e,
    };
    let first = block.step_at(0);
    Line {
        number: i,
        kind: e.kind,
        first,
        last: e.last,
        steps: e.upto - b.upto,
        bytes: e.end - b.end,
    }
}
