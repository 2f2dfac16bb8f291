// What an operation on two lists of steps keeps, and the list that it makes of them.

#![tactic(auto)]

ghost use Rattle.std.specs.Prelude.{◌≡◌};
ghost use Rattle.pair_operation.specs.Result.{keeps};

// What is asked of two images.
#[derive(Clone, Copy)]
pub enum Operation {
    Both,
    Either,
    Without,
}

// Whether an operation keeps a step, by whether the first image has it and whether the second has it.
pub fn keeps(op: Operation, in_first: bool, in_second: bool) -> bool
    ensures { result ≡ keeps op in_first in_second }
{
    match op {
        Operation::Both => in_first && in_second,
        Operation::Either => in_first || in_second,
        Operation::Without => in_first && !in_second,
    }
}
