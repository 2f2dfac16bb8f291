// The block lister: reads an image from standard input.

#![tactic(auto)]

use std::io;

// Lists the image on standard input.
fn main(rt: HostRuntime) -> io::Result<()> {
    blocks_print::run(&mut rt.stdin(), &mut io::writer(&rt))
}
