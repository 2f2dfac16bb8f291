// The clock of a step: ten steps an hour, 24 hours a day, 365 days a year.

#![tactic(auto)]

ghost use Rattle.std.specs.Prelude.{◌≡◌};
ghost use Rattle.clock.specs.Clock.{paper_of, promised};

use rules::Refusal;

// Document 01: the steps of a day.
const DAY_STEPS: u32 = 240;

// Document 01: the steps of an hour.
const HOUR_STEPS: u32 = 10;

// Document 01: the minutes of a step.
const STEP_MINUTES: u32 = 6;

// Document 01: the days of a year.
const YEAR_DAYS: u32 = 365;

// A time of the year: the day from 1, hour and minute from 0.
#[derive(Clone, Copy)]
pub struct Time {
    pub day: u32,
    pub hour: u32,
    pub minute: u32,
}

// When a step is, or the refusal of a step after the year's last.
pub fn clock_of(step: u32) -> Result<Time, Refusal>
    ensures { paper_of result ≡ promised step }
{
    if step >= DAY_STEPS * YEAR_DAYS {
        return Err(rules::refuse(rules::NOT_IN_THE_YEAR, 0));
    }
    Ok(Time {
        day: step / DAY_STEPS + 1,
        hour: step % DAY_STEPS / HOUR_STEPS,
        minute: step % HOUR_STEPS * STEP_MINUTES,
    })
}
