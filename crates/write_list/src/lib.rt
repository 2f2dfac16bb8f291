// The tests of a list of steps, for every caller that is handed one: no more steps than a list may have, none above the largest, and each above
// its forerunner. A list that stands them is one of document 01's.

#![tactic(auto)]

ghost use Rattle.std.specs.Prelude.{◌≡◌, true, ◌≤◌, length};
ghost use Rattle.write_list.specs.Faults.{above, falls, first_above, first_fall};
ghost use Rattle.write_list.specs.Tests.{test_of};
ghost use Rattle.write_list.specs.Inside.Passed.{Passed};

use rules::Refusal;

// Whether each step is above its forerunner; no turn leaves the loop, so that several steps are compared at once.
fn rises(list: &[u32]) -> bool
    ensures { result ≡ true → Passed falls list.now (length list.now) }
{
    let mut all = true;
    for i in 1..list.len() {
        if list[i] <= list[i - 1] {
            all = false;
        }
    }
    all
}

// The first index not above its forerunner, or the length where there is none.
fn first_fall(list: &[u32]) -> usize
    ensures { result ≡ first_fall list.now }
{
    if rises(list) {
        return list.len();
    }
    for i in 1..list.len() {
        if list[i] <= list[i - 1] {
            return i;
        }
    }
    list.len()
}

// An index below which no step is above the largest: where the steps before the first fall rise to one that is not, none of them is.
fn small_below(list: &[u32], fall: usize) -> usize
    requires { fall ≡ first_fall list.now }
    ensures { (result ≤ length list.now) × Passed above list.now result }
{
    if fall == 0 {
        return 0;
    }
    if rules::largest_step() < list[fall - 1] {
        return 0;
    }
    fall
}

// The index of the first step above the largest, or the length where there is none; the first fall is at `fall`.
fn first_above(list: &[u32], fall: usize) -> usize
    requires { fall ≡ first_fall list.now }
    ensures { result ≡ first_above list.now }
{
    let top = rules::largest_step();
    for i in small_below(list, fall)..list.len() {
        if top < list[i] {
            return i;
        }
    }
    list.len()
}

// Whether a list is one of document 01's, and which refusal comes first where it is not.
pub fn test(list: &[u32]) -> Result<(), Refusal>
    ensures { result ≡ test_of list.now }
{
    let n = list.len();
    if n > rules::most_steps() {
        return Err(rules::refuse(rules::TOO_MANY_STEPS, 0));
    }
    let fall = first_fall(list);
    let above = first_above(list, fall);
    if above < n {
        return Err(rules::refuse(rules::STEP_TOO_LARGE, above as u32));
    }
    if fall < n {
        return Err(rules::refuse(rules::NOT_INCREASING, fall as u32));
    }
    Ok(())
}
