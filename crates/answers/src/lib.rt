// The answers as C sees them: each is a struct of numbers. The number of its refusal is 0 where it accepts; where it refuses, every other
// field is 0.

#![tactic(auto)]

ghost use Rattle.std.specs.Prelude.{◌≡◌, []};
ghost use Rattle.rules.specs.Paper.{accepting, refusing};
ghost use Rattle.clock.specs.Clock as clock;
ghost use Rattle.read.specs.Read as read;
ghost use Rattle.write.specs.Outcome as write;
ghost use Rattle.ask.specs.Rank as rank;
ghost use Rattle.ask.specs.First as first;
ghost use Rattle.ask.specs.Cursor as cursor;
ghost use Rattle.answers.specs.Fields.{refusal_of, counted_of, ranked_of, first_of, moved_of, clocked_of};
ghost use Rattle.answers.specs.Inside.Steps.{unfound, unmoved};

use ask::Next;
use clock::Time;

// Free: the interface has it so. Whether an answer gives a step.
const FOUND: u32 = 1;

const NOTHING: u32 = 0;

// A refusal: number, side and place, all 0 where the answer accepts.
#[repr(C)]
#[derive(Clone, Copy)]
pub struct Refusal {
    pub number: u32,
    pub side: u32,
    pub place: u32,
}

// How many steps, and how many bytes their image has; a check and a reading back write none, so their bytes are 0.
#[repr(C)]
#[derive(Clone, Copy)]
pub struct Counted {
    pub refusal: Refusal,
    pub steps: u32,
    pub bytes: u32,
}

// The step at a rank.
#[repr(C)]
#[derive(Clone, Copy)]
pub struct Ranked {
    pub refusal: Refusal,
    pub step: u32,
}

// The first step at or after a bound with its rank, or nothing: then found is 0.
#[repr(C)]
#[derive(Clone, Copy)]
pub struct First {
    pub refusal: Refusal,
    pub found: u32,
    pub step: u32,
    pub rank: u32,
}

// A place in an image's list of steps.
#[repr(C)]
#[derive(Clone, Copy)]
pub struct Cursor {
    pub rank: u32,
}

// The moved cursor, and the step that it gave, or none: then found is 0.
#[repr(C)]
#[derive(Clone, Copy)]
pub struct Moved {
    pub refusal: Refusal,
    pub found: u32,
    pub step: u32,
    pub cursor: Cursor,
}

// A time of the year.
#[repr(C)]
#[derive(Clone, Copy)]
pub struct Clock {
    pub refusal: Refusal,
    pub day: u32,
    pub hour: u32,
    pub minute: u32,
}

// The refusal of an answer that accepts.
fn none() -> Refusal
    ensures { result ≡ refusal_of (accepting []) }
{
    Refusal {
        number: 0,
        side: 0,
        place: 0,
    }
}

// A refusal in its fields.
impl From<rules::Refusal> for Refusal {
    ghost from_gives = { λ r a. a ≡ refusal_of (refusing 0 r) };

    fn from(r: rules::Refusal) -> Refusal {
        Refusal {
            number: r.number,
            side: r.side,
            place: r.place,
        }
    }
}

// The answer of writing, or of a pair, in its fields.
impl From<Result<write::Counted, rules::Refusal>> for Counted {
    ghost from_gives = { λ c a. a ≡ counted_of (write.paper_of c) };

    fn from(c: Result<write::Counted, rules::Refusal>) -> Counted {
        match c {
            Ok(w) => Counted {
                refusal: none(),
                steps: w.steps,
                bytes: w.bytes,
            },
            Err(r) => Counted {
                refusal: Refusal::from(r),
                steps: 0,
                bytes: 0,
            },
        }
    }
}

// The answer of a check or a reading back in its fields: as that of writing, with no bytes.
impl From<Result<u32, rules::Refusal>> for Counted {
    ghost from_gives = { λ c a. a ≡ counted_of (read.paper_of c) };

    fn from(c: Result<u32, rules::Refusal>) -> Counted {
        c.map(|steps| write::Counted { steps, bytes: 0 }).into()
    }
}

// The answer to a rank in its fields.
impl From<Result<u32, rules::Refusal>> for Ranked {
    ghost from_gives = { λ c a. a ≡ ranked_of (rank.paper_of c) };

    fn from(c: Result<u32, rules::Refusal>) -> Ranked {
        match c {
            Ok(step) => Ranked {
                refusal: none(),
                step,
            },
            Err(r) => Ranked {
                refusal: Refusal::from(r),
                step: 0,
            },
        }
    }
}

// An answer to a bound that finds no step.
fn finds_nothing(refusal: Refusal) -> First
    ensures { result ≡ unfound refusal }
{
    First {
        refusal,
        found: NOTHING,
        step: 0,
        rank: 0,
    }
}

// The answer to a bound in its fields.
impl From<ask::First> for First {
    ghost from_gives = { λ c a. a ≡ first_of (first.paper_of c) };

    fn from(c: ask::First) -> First {
        match c {
            ask::First::Found(h) => First {
                refusal: none(),
                found: FOUND,
                step: h.step,
                rank: h.rank,
            },
            ask::First::Nothing => finds_nothing(none()),
            ask::First::Refused(r) => finds_nothing(Refusal::from(r)),
        }
    }
}

// The cursor of a rank, as `ask` knows it.
impl From<Cursor> for ask::Cursor {
    ghost from_gives = { λ c a. a.rank ≡ c.rank };

    fn from(c: Cursor) -> ask::Cursor {
        ask::Cursor { rank: c.rank }
    }
}

// An answer that gives no step, and the cursor at a rank.
fn stands(refusal: Refusal, rank: u32) -> Moved
    ensures { result ≡ unmoved refusal rank }
{
    Moved {
        refusal,
        found: NOTHING,
        step: 0,
        cursor: Cursor { rank },
    }
}

// The answer of `next` in its fields.
impl From<Result<Next, rules::Refusal>> for Moved {
    ghost from_gives = { λ c a. a ≡ moved_of (cursor.next_paper c) };

    fn from(c: Result<Next, rules::Refusal>) -> Moved {
        match c {
            Ok(Next::Step(m)) => Moved {
                refusal: none(),
                found: FOUND,
                step: m.step,
                cursor: Cursor {
                    rank: m.cursor.rank,
                },
            },
            Ok(Next::End(at)) => stands(none(), at.rank),
            Err(r) => stands(Refusal::from(r), 0),
        }
    }
}

// The answer of `start` or `skip_to` in its fields: as that of `next` where it gives no step.
impl From<Result<ask::Cursor, rules::Refusal>> for Moved {
    ghost from_gives = { λ c a. a ≡ moved_of (cursor.placed_paper c) };

    fn from(c: Result<ask::Cursor, rules::Refusal>) -> Moved {
        c.map(Next::End).into()
    }
}

// The answer of the clock in its fields.
impl From<Result<Time, rules::Refusal>> for Clock {
    ghost from_gives = { λ c a. a ≡ clocked_of (clock.paper_of c) };

    fn from(c: Result<Time, rules::Refusal>) -> Clock {
        match c {
            Ok(t) => Clock {
                refusal: none(),
                day: t.day,
                hour: t.hour,
                minute: t.minute,
            },
            Err(r) => Clock {
                refusal: Refusal::from(r),
                day: 0,
                hour: 0,
                minute: 0,
            },
        }
    }
}
