ghost use Rattle.std.specs.Prelude.{◌≡◌, ◌<◌, IfErr, IfSome};
ghost use Rattle.keybytes.specs.declared.fault.Fault.{Fault};

use crate::Gate;
use crossbeam_queue::RuledArrayQueue;
use crossbeam_queue::protocol::{Free, Lesson, Outcome, Protocol};
use keybytes::Fault;
use std::alloc::Global;
use std::sync::Wait;

/// How many ranges a plan has at most.
const RANGES_MOST: usize = 256;

/// Each number in the queue may be a range's.
pub(crate) struct MayBeRanges;

impl Protocol<usize, ()> for MayBeRanges {
    ghost use Rattle.crew.specs.Dealt.{AreDealt};

    ghost holds = { λ items views. AreDealt items };

    ghost first = { tt };
}

/// So may be a number that is taken out.
struct Dealt;

impl Outcome<usize, ()> for Dealt {
    ghost use Rattle.std.specs.Prelude.{◌<◌};

    ghost then = { λ v number w. number < 256 };
}

impl Lesson<usize, ()> for Dealt {
    ghost use Rattle.std.specs.Prelude.{⊤};

    ghost fact = { λ v items. ⊤ };
}

/// Numbers of ranges, of which each worker takes the next one. Nothing rests on which of them are handed out.
#[derive(Drop)]
pub(crate) struct RangeQueue {
    numbers: RuledArrayQueue<usize, (), MayBeRanges>,
}

impl RangeQueue {
    /// The numbers below that one that the gate lets through, but for those that the queue doesn't take.
    pub(crate) fn new<G: Gate, R: Wait>(
        rt: &R,
        alloc: Global,
        ranges: usize,
        gate: &G,
    ) -> Result<RangeQueue, Fault>
        ensures { IfErr result (λ fault. fault ≡ Fault.Memory) }
    {
        let ranges = ranges.min(RANGES_MOST);
        let (numbers, _pass) = RuledArrayQueue::ruled(alloc, ranges.max(1))?;
        let queue = RangeQueue { numbers };
        for range in 0..ranges {
            if gate.deals(range) {
                queue.push(rt, range);
            }
        }
        Ok(queue)
    }

    /// Puts a number behind the others, if there is room.
    fn push<R: Wait>(&self, rt: &R, range: usize)
        requires { range < 256 }
    {
        let mut pass = self.numbers.pass();
        let _taken = self.numbers.push_as::<Free, R>(rt, &mut pass, range);
    }

    /// The next number; none once all were handed out.
    pub(crate) fn next<R: Wait>(&self, rt: &R) -> Option<usize>
        ensures { IfSome result (λ range. range < 256) }
    {
        let mut pass = self.numbers.pass();
        self.numbers.pop_as::<Dealt, R>(rt, &mut pass)
    }

    /// Takes all numbers out, so that nobody finds one any more.
    pub(crate) fn drain<R: Wait>(&self, rt: &R) {
        for _ in rt.forever() {
            if self.next(rt).is_none() {
                return;
            }
        }
    }
}
