//! A table and what stands beside it, each called by itself: a switch looks whether it can take the other in.
ghost use Rattle.std.specs.Prelude.{◌≡◌};

use crate::lent::lent_of;
use crate::list_spool::Lists;
use crate::made::{Made, list_spool};
use crate::place::NO_FAULT;
use crate::rows::{Rows, SEVEN, asked, has_pairs, rest_of};
use crate::spoiled::tells;
use crate::stand::Stand;
use crate::story::Stock;
use builder_core::{Building, Dealing, Ends, Live, Parts, Plan, TableRings};
use heap_table::PageImage;
use keybytes::{Fault, KeySpec, copied_specs};
use std::alloc::Global;
use std::marker::Brand;

const THREE: Rows = Rows { count: 3, ..SEVEN };

/// What is done with the table, or with what stands beside it.
pub enum Half {
    Start,
    /// Of no index.
    StartNone,
    /// Over no range, though these have ends.
    StartNowhere,
    /// Of the next page.
    Scan,
    Switch,
    Abandon,
    /// What stands beside the table gives its work up.
    GiveUp,
    /// It gets another spool.
    Exchange,
    EndScan,
    /// Without the table.
    Load,
    /// Of at most so many entries, behind another end of the scans.
    Feed(usize),
    Apply(usize),
    /// Of at most so many that what stands beside the table has seen for itself.
    ApplyAlone(usize),
    /// How many pairs the ready index has, if they are the table's.
    Follow,
}

/// What it is answered with; 0 where it tells no number.
pub type Told = Result<usize, Fault>;

/// On the two pages of three rows.
static APART: [(Half, Told); 18] = [
    (Half::Switch, Err(Fault::NoBuild)),
    (Half::StartNowhere, Err(Fault::BadRanges)),
    (Half::Start, Ok(2)),
    (Half::Scan, Ok(0)),
    (Half::Switch, Err(Fault::NotScanned(0))),
    (Half::Scan, Ok(1)),
    (Half::Switch, Err(Fault::NotLoaded(0))),
    (Half::GiveUp, Ok(0)),
    (Half::Switch, Err(Fault::NoBuild)),
    (Half::Scan, Err(Fault::RangeDone)),
    (Half::Abandon, Ok(0)),
    (Half::Start, Err(Fault::BadCount)),
    (Half::StartNone, Err(Fault::BadCount)),
    (Half::Exchange, Ok(0)),
    (Half::Start, Ok(2)),
    (Half::Switch, Err(Fault::NotScanned(0))),
    (Half::Exchange, Ok(0)),
    (Half::Switch, Err(Fault::NoBuild)),
];

/// A build of the same table to its end.
const BUILD: &str = "table,2,int,int
start,1,0,even:1,n:0
scan,0,0
scan,0,0
seal,0
load,0
switch
";

const BUILT: &str = "2,ok,2
3,ok,0
4,ok,1
5,ok,2
6,ok,3
7,ok,5,ready:0
7,pages,0
";

/// Once the workers are back. The changes meanwhile are four entries, of which one is left to the switch.
pub static BACK: [(Half, Told); 12] = [
    (Half::Load, Err(Fault::NotLoaded(0))),
    (Half::EndScan, Ok(0)),
    (Half::Load, Ok(7)),
    (Half::Load, Ok(0)),
    (Half::ApplyAlone(9), Ok(0)),
    (Half::Feed(2), Ok(2)),
    (Half::ApplyAlone(1), Ok(1)),
    (Half::ApplyAlone(9), Ok(1)),
    (Half::Feed(1), Ok(1)),
    (Half::Apply(9), Ok(1)),
    (Half::Switch, Ok(13)),
    (Half::Follow, Ok(7)),
];

/// The plan of a build, one without an index, and one over no range.
#[derive(Drop)]
pub struct Plans {
    pub plan: Plan,
    none: Plan,
    nowhere: Plan,
}

pub fn scanned<T: TableRings>(
    live: &mut Live<T>,
    range: usize,
    worker: usize,
    image: PageImage,
) -> Told {
    match live.scan_step(range, worker, image) {
        Ok(page) => Ok(page as usize),
        Err((_, fault)) => Err(fault),
    }
}

pub fn started<T: TableRings>(
    live: &mut Live<T>,
    building: &mut Building<Lists, T>,
    plan: &Plan,
) -> Told {
    Ok(live.start(plan, building)? as usize)
}

/// Puts the pairs of the index in order, where that can be done.
fn loaded<T: TableRings>(alloc: Global, building: &mut Building<Lists, T>) -> Told {
    let Some(work) = building.work() else {
        return Err(Fault::NoBuild);
    };
    work.check()?;
    if !work.is_loading() || work.specs().is_empty() {
        return Err(Fault::NotLoaded(0));
    }
    building.load(alloc, 0)
}

/// Applies entries without the table, where that can be done.
fn applied_alone<T: TableRings>(building: &mut Building<Lists, T>, most: usize) -> Told {
    let seen = building.look_for_entries(0);
    let Some(work) = building.work() else {
        return Err(Fault::NoBuild);
    };
    work.check()?;
    if work.indexes().is_empty() || !work.is_loaded(0) {
        return Err(Fault::NotLoaded(0));
    }
    building.apply(0, most.min(seen))
}

/// Feeds entries, or applies some, behind another end of the scans.
fn moved<T: TableRings>(
    live: &mut Live<T>,
    building: &mut Building<Lists, T>,
    most: usize,
    is_fed: bool,
) -> Told {
    live.end_scan(building)?;
    if is_fed {
        return live.feed_beside(0, most, building);
    }
    live.check_apply(0, building)?;
    live.apply(0, most, building)
}

fn followed<T: TableRings>(live: &mut Live<T>, spec: Option<&KeySpec>) -> Told {
    let pairs = rest_of(live, spec.ok_or(Fault::BadColumn)?)?;
    if has_pairs(live, 0, &pairs) {
        Ok(pairs.len())
    } else {
        Err(Fault::BadCount)
    }
}

/// What is answered where no number is told.
fn done(told: Result<(), Fault>) -> Told {
    told?;
    Ok(0)
}

fn does<T: TableRings>(
    alloc: Global,
    live: &mut Live<T>,
    building: &mut Building<Lists, T>,
    plans: &Plans,
    half: &Half,
) -> Told {
    match half {
        Half::Start => started(live, building, &plans.plan),
        Half::StartNone => started(live, building, &plans.none),
        Half::StartNowhere => started(live, building, &plans.nowhere),
        Half::Scan => scanned(live, 0, 0, PageImage::new(alloc)?),
        Half::Switch => Ok(live.switch_in(building)?.number),
        Half::Abandon => done(live.abandon()),
        Half::GiveUp => {
            building.give_up();
            Ok(0)
        }
        Half::Exchange => {
            let _others = building.exchange(vec![in alloc; list_spool(alloc)?]?);
            Ok(0)
        }
        Half::EndScan => done(live.end_scan(building)),
        Half::Load => loaded(alloc, building),
        Half::Feed(most) => moved(live, building, *most, true),
        Half::Apply(most) => moved(live, building, *most, false),
        Half::ApplyAlone(most) => applied_alone(building, *most),
        Half::Follow => followed(live, plans.plan.specs.first()),
    }
}

/// The number of the first case that is answered otherwise.
pub fn first_other<T: TableRings>(
    alloc: Global,
    live: &mut Live<T>,
    building: &mut Building<Lists, T>,
    plans: &Plans,
    cases: &[(Half, Told)],
) -> Option<usize> {
    for number in 0..cases.len() {
        let (half, told) = &cases[number];
        if does(alloc, live, building, plans, half) != *told {
            return Some(number);
        }
    }
    None
}

/// The number of the first case that is answered otherwise, or of none where a build behind them is.
fn apart_of<T: TableRings>(
    alloc: Global,
    live: Live<T>,
    ends: Ends<T>,
    spools: Vec<Lists>,
    plans: &Plans,
    stock: Stock,
) -> Option<usize> {
    let mut live = live;
    let mut building = Building::new(ends, spools);
    let other = first_other(alloc, &mut live, &mut building, plans, &APART);
    let (ends, spools) = building.into_parts();
    let mut stand = Stand::new(alloc, live, ends, spools, stock, NO_FAULT);
    let is_built = tells(&mut stand, BUILD, BUILT);
    if stand.end() && is_built {
        other
    } else {
        Some(APART.len())
    }
}

fn other_of<T: TableRings>(
    alloc: Global,
    parts: Parts,
    spools: Vec<Lists>,
    plans: &Plans,
    stock: Stock,
) -> Option<usize>
    requires pages { parts.pages ≡ T.pages }
    requires sides { parts.sides ≡ T.sides }
{
    let (live, ends) = parts.open::<T>();
    if stock.count == 1 {
        apart_of(alloc, live, ends, spools, plans, stock)
    } else {
        lent_of(alloc, live, ends, spools, plans)
    }
}

/// Over no range.
fn nowhere(alloc: Global, specs: Vec<KeySpec>) -> Plan {
    Plan {
        specs,
        workers: 1,
        dealing: Dealing::Ends(Vec::new(alloc)),
        tries: 1,
        keep_pairs: false,
    }
}

/// What is otherwise in a build of a script's table over lists: by one worker each half by itself, by two workers while
/// these are lent.
fn other_in(alloc: Global, records: &str, rows: &Rows) -> Result<Option<usize>, Fault> {
    let (heap, plan, mut stock) = asked(alloc, records, rows, 1)?;
    let specs = copied_specs(alloc, &plan.specs)?;
    let plans = Plans {
        plan,
        none: nowhere(alloc, Vec::new(alloc)),
        nowhere: nowhere(alloc, specs),
    };
    let spools = <Lists as Made>::made(alloc, &mut stock, &NO_FAULT)?;
    match Parts::new(alloc, heap) {
        Ok(parts) => Ok(other_of::<Brand>(alloc, parts, spools, &plans, stock)),
        Err((_, fault)) => Err(fault),
    }
}

/// A switch looks at what it takes in, and lent workers look for themselves.
#[test]
fn halves_are_called_by_themselves(rt: HostRuntime) {
    let apart = other_in(
        rt.alloc(),
        "table,2,int,int
start,1,4,even:1,n:0
",
        &THREE,
    );
    assert_eq!(rt; apart, Ok(None));
    let lent = other_in(
        rt.alloc(),
        "table,2,int,int
start,2,4,even:2,n:0
",
        &SEVEN,
    );
    assert_eq!(rt; lent, Ok(None));
}
