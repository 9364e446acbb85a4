//! The machine of one thread that workers claim, finish and deliver pieces by.

ghost use Rattle.std.specs.Prelude.{◌≡◌, ◌≤◌, length};

use crate::marks::{Marks, expect_marks};
use mp_claims::{Core, CoreRefusal, Event};
use mp_nums::Slots;
use std::process::Abort;
use std::test::Fail;

/// The pieces that the workers hold.
type Held = (Option<u64>, Option<u64>);

/// An event, what it is answered, what each worker then holds, and whether all is then complete.
type Step = (Event, Result<(), CoreRefusal>, Held, bool);

/// Two workers and two pieces.
static STEPS: [Step; 12] = [
    (Event::Claim(0), Ok(()), (Some(0), None), false),
    (
        Event::Claim(0),
        Err(CoreRefusal::Holding),
        (Some(0), None),
        false,
    ),
    (
        Event::Finish(1),
        Err(CoreRefusal::Idle),
        (Some(0), None),
        false,
    ),
    (
        Event::Claim(2),
        Err(CoreRefusal::Stranger),
        (Some(0), None),
        false,
    ),
    (Event::Claim(1), Ok(()), (Some(0), Some(1)), false),
    (
        Event::Deliver(0),
        Err(CoreRefusal::Holding),
        (Some(0), Some(1)),
        false,
    ),
    (Event::Finish(1), Ok(()), (Some(0), None), false),
    (Event::Claim(1), Ok(()), (Some(0), None), false),
    (
        Event::Claim(1),
        Err(CoreRefusal::Spent),
        (Some(0), None),
        false,
    ),
    (Event::Finish(0), Ok(()), (None, None), false),
    (Event::Deliver(0), Ok(()), (None, None), false),
    (Event::Deliver(1), Ok(()), (None, None), true),
];

/// Expects of the event what it is answered and where it leads.
fn step_once(rt: &impl Abort, core: &mut Core<Slots>, kernel: &Marks, step: &Step)
    requires size { kernel.now.pieces ≡ core.old.size }
    requires pieces { length core.old.state.pieces ≤ kernel.now.pieces }
    requires workers { length core.old.state.workers ≡ 2 }
    ensures size { core.new.size ≡ core.old.size }
    ensures pieces { length core.new.state.pieces ≡ length core.old.state.pieces }
    ensures workers { length core.new.state.workers ≡ 2 }
{
    let (event, answer, held, complete) = step;
    assert_eq!(rt; core.step(*event, kernel), *answer, "at {event:?}");
    assert_eq!(rt; (core.held(0), core.held(1)), *held, "at {event:?}");
    assert_eq!(rt; core.complete(), *complete, "at {event:?}");
}

/// Takes two workers through their steps.
fn step_each(rt: &impl Abort, core: &mut Core<Slots>, kernel: &Marks)
    requires size { kernel.now.pieces ≡ core.old.size }
    requires pieces { length core.old.state.pieces ≤ kernel.now.pieces }
    requires workers { length core.old.state.workers ≡ 2 }
{
    for step in &STEPS {
        step_once(rt, core, kernel, step);
    }
}

#[test]
fn two_workers_deliver_two_pieces(rt: HostRuntime) -> Result<(), Fail> {
    let mut core: Core<Slots> = Core::new(rt.alloc(), 2, 2, 2)?;
    step_each(&rt, &mut core, &Marks { pieces: 2 });
    expect_marks(&rt, core.total().as_slice(), 2);
    Ok(())
}

#[test]
fn no_pieces_are_complete(rt: HostRuntime) -> Result<(), Fail> {
    let core: Core<Slots> = Core::new(rt.alloc(), 0, 1, 3)?;
    assert!(rt; core.complete());
    assert_eq!(rt; core.total().as_slice(), [None, None, None].as_slice());
    Ok(())
}
