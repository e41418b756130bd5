ghost use Rattle.std.specs.Prelude.{◌≡◌, All, map, IfOk, IfErr, OnErr};
ghost use Rattle.build_events.specs.CoreState.{ReadyFollowTable};
ghost use Rattle.build_events.specs.Headline.{RunsAsAtRest};
ghost use Rattle.building.specs.Holding.{spools_in};
ghost use Rattle.live_lemmas.specs.FullSpools.{WantedPage};
ghost use Rattle.run_spool.specs.Spools.{IsFullIntact};

use crate::{Core, Ends, Event, Live, Reply, TableRings};
use index_load::end_spools;
use keybytes::Fault;
use run_spool::Spool;
use std::alloc::Global;

/// Does all events in turn, and answers each. Want of memory before the first event does none of them. Otherwise a
/// build that runs in the table that is handed in, or still behind the last event, is abandoned. The spools come back ended, however it
/// goes.
pub fn run_events<S: Spool, T: TableRings>(
    alloc: Global,
    live: Live<T>,
    ends: Ends<T>,
    spools: Vec<S>,
    events: &[Event],
) -> (Live<T>, Ends<T>, Vec<S>, Result<Vec<Reply>, Fault>)
    ensures headline { IfOk result.3 (λ replies.
        RunsAsAtRest (WantedPage (IsFullIntact S.is_full S.is_intact S.runs) S.runs S.open_run S.stake) live.state
        (spools_in S.runs S.open_run S.stake spools.items) events.now replies.items
        result.0.state) }
    ensures ready { ReadyFollowTable result.0.state }
    ensures ended { All S.ended result.2.items }
    ensures stakes { map S.stake result.2.items ≡ map S.stake spools.items }
    ensures unchanged { OnErr result.3 ((result.0 ≡ live) × (result.1 ≡ ends)) }
    ensures memory { IfErr result.3 (λ fault. fault ≡ Fault.Memory) }
{
    let mut replies = match Vec::with_capacity(alloc, events.len()) {
        Ok(replies) => replies,
        Err(_) => {
            let mut spools = spools;
            end_spools(&mut spools);
            let _follow = live.ready();
            return (live, ends, spools, Err(Fault::Memory));
        }
    };
    let mut core = Core::new(live, ends, spools);
    for event in events {
        replies.push_reserved(core.answer(event));
    }
    let (live, ends, spools) = core.into_live();
    let _follow = live.ready();
    (live, ends, spools, Ok(replies))
}
