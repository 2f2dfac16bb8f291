// What an image is: a directory of entries, and a payload in which each block has its own part. The bytes of a list under a cut, the verdict
// on any bytes, and the theorem that the two agree stand in `specs/` and `proofs/`; here are the entries.

#![tactic(auto)]

ghost use Rattle.std.specs.Prelude.{◌≡◌, ◌+◌, ◌^◌, ◌≤◌, ◌<◌, length};
ghost use Rattle.rules.specs.Sizes.{entry_size};
ghost use Rattle.image.specs.Entry.{entry_at, start, after_entry, Narrow};

// One record of the directory.
#[derive(Clone, Copy)]
pub struct Entry {
    pub kind: usize,
    pub last: usize,
    pub upto: usize,
    pub end: usize,
}

// What stands before a block: one past the last step, the number of steps, the end in the payload.
#[derive(Clone, Copy)]
pub struct Before {
    pub next: usize,
    pub upto: usize,
    pub end: usize,
}

// The entry at a place.
pub fn entry_at(s: &[u8], at: usize) -> Entry
    requires { at + entry_size ≤ length s.now }
    ensures { (result ≡ entry_at s.now at) × Narrow result }
{
    Entry {
        kind: usize::from(s[at]),
        last: rules::number_at(s, at + 1),
        upto: rules::number_at(s, at + 5),
        end: rules::number_at(s, at + 9),
    }
}

// What stands before the first block.
pub fn start() -> Before
    ensures { result ≡ start }
{
    Before {
        next: 0,
        upto: 0,
        end: 0,
    }
}

// What stands before the block after that of an entry.
pub fn after(e: Entry) -> Before
    requires { e.last < 2 ^ 32 }
    ensures { result ≡ after_entry e }
{
    Before {
        next: e.last + 1,
        upto: e.upto,
        end: e.end,
    }
}
