// A window of words over the steps: bit j of word i stands for step o + 64 i + j, where o is the window's first step. Bits are laid over
// those that are there, so that steps may come more than once.

#![tactic(auto)]

ghost use Rattle.std.specs.Prelude.{[], ◌∷◌, ℕ, ◌+◌, ◌*◌, ◌<◌, length};
ghost use Rattle.lists.specs.Stores.{Brief};
ghost use Rattle.row.specs.Row.{bits_from};
ghost use Rattle.row.specs.Words.{word_bits};
ghost use Rattle.pair_window.specs.Window.{Adds};

use row::WORD_BITS;

// Lays 64 bits, the first of which stands for the step `place` places after the window's first, into a window; what falls past its end
// is left out. Two shifts make the bits of the next word, since one of 64 places is none.
pub fn lay(words: &mut [usize], place: usize, bits: usize)
    requires { (place < word_bits * length words.old) × Brief words.old }
    ensures { Adds words.old (λ (o : ℕ). bits_from word_bits (o + place) bits) words.new }
{
    let i = place / WORD_BITS;
    let s = place % WORD_BITS;
    let count = words.len();
    words[i] = words[i] | (bits << s);
    if i + 1 < count {
        words[i + 1] = words[i + 1] | (bits / 2 >> (WORD_BITS - 1 - s));
    }
}

// Marks the step `place` places after the window's first.
pub fn mark(words: &mut [usize], place: usize)
    requires { (place < word_bits * length words.old) × Brief words.old }
    ensures { Adds words.old (λ (o : ℕ). (o + place) ∷ []) words.new }
{
    let i = place / WORD_BITS;
    words[i] = words[i] | (1 << place % WORD_BITS);
}
