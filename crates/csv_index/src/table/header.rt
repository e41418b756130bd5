//! The first record of a file.
ghost use Rattle.std.specs.Prelude.{◌⊎◌, ◌<◌, ◌-◌, ◌^◌, IfOk, IfErr, IfSome, MatchOption, length};
ghost use Rattle.std.specs.List.{Any};
ghost use Rattle.std.specs.String.{string_bytes};
ghost use Rattle.csv.specs.Records.{fields_of};
ghost use Rattle.csv_index.specs.Failures.{LacksMemory};
ghost use Rattle.csv_index.specs.Headers.{AreFound, IsAbsent, IsFirstFrom, IsNotFound, StandsAlone};

use crate::table::column::Column;
use crate::table::failure::Failure;
use crate::table::refusal::Refusal;
use crate::table::source::Source;
use csv::ByteRecord;
use std::alloc::Global;

/// Where the cells of the columns stand in a record, by their names in the header.
pub fn sources(
    alloc: Global,
    header: &ByteRecord,
    columns: &[Column],
) -> Result<Vec<Source>, Failure>
    ensures found { IfOk result (λ sources. AreFound (fields_of header.now) columns.now sources.items) }
    ensures refused { IfErr result (λ failure. LacksMemory failure
        ⊎ Any (λ column. IsNotFound (fields_of header.now) (string_bytes column.name) failure) columns.now) }
{
    let mut sources = Vec::with_capacity(alloc, columns.len())?;
    for column in columns {
        let at = match place(alloc, header, column.name.as_str()) {
            Ok(at) => at,
            Err(failure) => return Err(failure),
        };
        sources.push(Source {
            at,
            kind: column.kind,
        })?;
    }
    Ok(sources)
}

/// The one place at which a name stands.
fn place(alloc: Global, header: &ByteRecord, name: &str) -> Result<usize, Failure>
    ensures found { IfOk result (StandsAlone (fields_of header.now) name.now) }
    ensures refused { IfErr result (IsNotFound (fields_of header.now) name.now) }
{
    let Some(place) = place_from(header, name.as_bytes(), 0) else {
        return Err(Failure::refused(alloc, Refusal::Missing, name));
    };
    match place_from(header, name.as_bytes(), place + 1) {
        Some(_) => Err(Failure::refused(alloc, Refusal::Twice, name)),
        None => Ok(place),
    }
}

/// The first place of a name, from a place on.
fn place_from(header: &ByteRecord, name: &[u8], from: usize) -> Option<usize>
    ensures first { MatchOption result (IsAbsent (fields_of header.now) name.now from (length (fields_of header.now)))
        (IsFirstFrom (fields_of header.now) name.now from) }
    ensures room { IfSome result (λ place. place < 2 ^ 64 - 1) }
{
    for place in from..header.len() {
        if header.get(place) == Some(name) {
            return Some(place);
        }
    }
    None
}
