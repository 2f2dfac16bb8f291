// The block lister: prints what `blocks_lines` says of an image, in the words of document 01. The only errors are those of the reader and the
// writer that it is given. It then stops, and of what was printed until then nothing is promised, as the writer promises nothing.

#![tactic(auto)]

ghost use Rattle.std.specs.Prelude.{◌≡◌, ◌+◌, List, ℕ, OnOk, IfOk, IfSome, length, take, ◌≤◌};
ghost use Rattle.std.specs.Io.KnownBytes.{Appends};
ghost use Rattle.rules.specs.Numbers.{number_at};
ghost use Rattle.image.specs.Verdict.{verdict};
ghost use Rattle.image.specs.Taken.{Takes};
ghost use Rattle.blocks_lines.specs.Shown.{another};
ghost use Rattle.blocks_print.specs.Text.{longest, lines_text, refusal_line, listing, report};

use blocks_lines::Contents;
use rules::Refusal;
use std::io;
use std::io::{Read, Write};

// Document 01: the longest input that is read, in bytes.
const LONGEST: usize = 65536;

// Prints a number with a space before it.
// Kept: it says so of every number, which no line of an image does.
pub fn another<W: Write>(out: &mut W, x: usize) -> io::Result<()>
    ensures { OnOk result (Appends (W.contents out.old) (W.contents out.new) (another x)) }
{
    write!(out, " {x}")
}

// Prints the lines of all blocks.
fn print_lines<W: Write>(out: &mut W, image: &[u8], blocks: usize) -> io::Result<()>
    requires { Takes (verdict image.now) × (blocks ≡ number_at image.now 0) }
    ensures { OnOk result (Appends (W.contents out.old) (W.contents out.new) (lines_text image.now blocks)) }
{
    for i in 0..blocks {
        let line = blocks_lines::line_at(image, i);
        writeln!(out, "{line}")?;
    }
    Ok(())
}

// Prints the only line of an image that is refused.
// Kept: it says so of every refusal, and `list` of those alone that an image has.
pub fn print_refusal<W: Write>(out: &mut W, r: Refusal) -> io::Result<()>
    ensures { OnOk result (Appends (W.contents out.old) (W.contents out.new) (refusal_line r)) }
{
    writeln!(out, "refused {} at {}", r.number, r.place)
}

// Prints the list of an image.
pub fn list<W: Write>(out: &mut W, image: &[u8]) -> io::Result<()>
    ensures { OnOk result (Appends (W.contents out.old) (W.contents out.new) (listing image.now)) }
{
    match blocks_lines::contents_of(image) {
        Ok(
            Contents {
                blocks,
                steps,
                bytes,
            },
        ) => {
            writeln!(out, "blocks {blocks} steps {steps} bytes {bytes}")?;
            print_lines(out, image, blocks)
        }
        Err(r) => print_refusal(out, r),
    }
}

// Fills a buffer from its front with what a reader gives, until it is full or nothing is left, and says how many bytes those are.
// Kept: how far one read gets is known only after it, so no `for` says how far the next one begins.
fn fill<R: Read>(from: &mut R, buffer: &mut [u8]) -> io::Result<usize>
    ensures within { IfOk result (λ n. n ≤ length buffer.new) }
    ensures front { IfOk result (λ n. IfSome (R.remaining from.old) (λ xs. take n buffer.new ≡ take (length buffer.new) xs)) }
{
    let mut at: usize = 0;
    while at < buffer.len() {
        let n = from.read(&mut buffer[at..])?;
        if n == 0 {
            return Ok(at);
        }
        at += n;
    }
    Ok(at)
}

// Lists the image that a reader gives. Of one that is too long it says so, and reads one byte past the longest.
pub fn run<R: Read, W: Write>(from: &mut R, out: &mut W) -> io::Result<()>
    ensures { OnOk result ((image : List ℕ) × Appends (W.contents out.old) (W.contents out.new) (report image)
        × IfSome (R.remaining from.old) (λ xs. image ≡ take (longest + 1) xs)) }
{
    let mut image = [0u8; LONGEST + 1];
    let n = fill(from, &mut image)?;
    if n > LONGEST {
        return writeln!(out, "too long");
    }
    list(out, &image[..n])
}
