// What becomes of a list of steps that an operation made: the tests of the room that is lent for it, and the writing of its steps once they
// stand in the front of the step buffer. Between the two the operation stores them.

#![tactic(auto)]

ghost use Rattle.std.specs.Prelude.{◌≡◌, length, take};
ghost use Rattle.rules.specs.Listed.{Listed};
ghost use Rattle.outcome.specs.Result.{room_of, of_result, Roomy, Leaves};

use rules::Refusal;
use write::Counted;

// Whether a step buffer and a work area of these lengths have room for a result of `n` steps, or the refusal that comes first.
pub fn room_for(n: usize, steps: usize, work: usize) -> Result<(), Refusal>
    ensures { result ≡ room_of n steps work }
{
    if n > rules::most_steps() {
        return Err(rules::refuse(rules::TOO_MANY_STEPS, 0));
    }
    if steps < n {
        return Err(rules::refuse(rules::STEPS_TOO_SHORT, n as u32));
    }
    let need = rules::work_for(n);
    if work < need {
        return Err(rules::refuse(rules::WORK_TOO_SHORT, need as u32));
    }
    Ok(())
}

// Writes the `n` steps in front of a step buffer, a result for which there is room, to the front of the output.
pub fn write_front(
    steps: &[u32],
    n: usize,
    work: &mut [u32],
    out: &mut [u8],
) -> Result<Counted, Refusal>
    requires { Listed (take n steps.now) × Roomy n (length steps.now) (length work.old) }
    ensures { Leaves (of_result (take n steps.now) (length steps.now) (length work.old) (length out.old))
        steps.now work.old out.old result steps.now work.new out.new }
{
    write::write_listed(&steps[..n], work, out)
}
