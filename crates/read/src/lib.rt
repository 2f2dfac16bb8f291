// Checking an image and reading it back. The counts come first, then the directory, then each block in its own part of the payload. A
// buffer is touched only after the whole image was accepted.

#![tactic(auto)]

ghost use Rattle.std.specs.Prelude.{◌≡◌, length};
ghost use Rattle.std.proofs.lemmas.List.Edits.{sets};
ghost use Rattle.image.specs.Entry.{entries_at, entry_place, start};
ghost use Rattle.image.specs.Verdict.{blocks_of};
ghost use Rattle.image.specs.Taken.{list_in};
ghost use Rattle.image_directory.specs.Sound.{Sound};
ghost use Rattle.read.specs.Inside.{answer_of, Ready};
ghost use Rattle.read.specs.Read.{paper_of, check_promise, read_promise, read_steps};

use image_block::Block;
use rules::Refusal;

// The blocks in turn, each in its own part of the payload.
fn blocks<'a>(image: &'a [u8], payload: &'a [u8], m: usize) -> Result<u32, Refusal>
    requires { Sound image.now payload.now m }
    ensures { result ≡ answer_of 0 (blocks_of payload.now start 0 (entries_at m image.now (entry_place 0))) }
{
    let mut b = image::start();
    for i in 0..m {
        let e = image_directory::entry(image, i);
        let block = Block {
            part: &payload[b.end..e.end],
            before: b,
            entry: e,
        };
        let n = block.number();
        if n != 0 {
            return Err(rules::refuse(n, i as u32));
        }
        b = image::after(e);
    }
    Ok(b.upto as u32)
}

// Checks an image: the number of its steps, or its first refusal.
pub fn check(image: &[u8]) -> Result<u32, Refusal>
    ensures { paper_of result ≡ check_promise image.now }
{
    let m = image_directory::check(image)?;
    let payload = image_directory::payload(image);
    blocks(image, payload, m)
}

// Puts the steps of all blocks of an image that was accepted into the front of a buffer.
fn put_blocks(image: &[u8], payload: &[u8], m: usize, out: &mut [u32])
    requires { Ready image.now payload.now m (length out.old) }
    ensures { out.new ≡ sets out.old 0
        (list_in (blocks_of payload.now start 0 (entries_at m image.now (entry_place 0)))) }
{
    let mut b = image::start();
    let mut at: usize = 0;
    for i in 0..m {
        let e = image_directory::entry(image, i);
        let block = Block {
            part: &payload[b.end..e.end],
            before: b,
            entry: e,
        };
        at = block.put_steps(out, at);
        b = image::after(e);
    }
}

// Reads an image back: its steps go into the first places of the buffer, or it is refused and the buffer stays as it was.
pub fn read(image: &[u8], steps: &mut [u32]) -> Result<u32, Refusal>
    ensures { (paper_of result ≡ read_promise image.now steps.old)
        × (steps.new ≡ read_steps image.now steps.old) }
{
    let n = check(image)?;
    if steps.len() < (n as usize) {
        return Err(rules::refuse(rules::STEPS_TOO_SHORT, n));
    }
    let m = rules::number_at(image, 0);
    let payload = image_directory::payload(image);
    put_blocks(image, payload, m, steps);
    Ok(n)
}
