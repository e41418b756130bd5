//! How pages and rows are dealt.
ghost use Rattle.std.specs.Prelude.{◌≡◌, ◌<◌, ◌+◌, ◌-◌};
ghost use Rattle.bench.specs.Dealt.{before};

/// How many of so many come before one of the parts, so many, into which they are dealt evenly.
pub fn before(all: u32, parts: u32, part: u32) -> u32
    ensures { result ≡ before all parts part }
{
    let all = u64::from(all);
    (all * u64::from(part) / u64::from(parts.max(1))).min(all) as u32
}

/// How many of so many that part has.
pub fn part_of(all: u32, parts: u32, part: u32) -> u32
    ensures { part < u32.MAX → result ≡ before all parts (part + 1) - before all parts part }
{
    before(all, parts, part.saturating_add(1)).saturating_sub(before(all, parts, part))
}
