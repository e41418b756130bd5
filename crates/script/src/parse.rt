//! From the fields of a record to what it asks for.
ghost use Rattle.std.specs.Prelude.{◌≡◌, ◌⊎◌, ℕ, List, [], ◌∷◌, Some, None, IfOk, IfErr};
ghost use Rattle.std.specs.List.{AllZip};
ghost use Rattle.csv.specs.Records.{fields_of};
ghost use Rattle.script.specs.Fields.{texts, SpellsNumber, SpellsRid, SpellsSpec, SpellsSpools};
ghost use Rattle.script.specs.Lines.{SpellBuild, SpellLine, SpellTable, SpellsLabel};
ghost use Rattle.script.specs.Shapes.{Fit, Fits, written};
ghost use Rattle.script.specs.declared.command_name.CommandName.TheVariants as name;
ghost use Rattle.script.specs.declared.part.Part.{Part as PartValue};
ghost use Rattle.script.specs.declared.part.Part.TheVariants as part;

use crate::fields::{count, dealing, each, number, rid, spools};
use crate::line::Line;
use crate::record_error::RecordError;
use crate::spelled::Spelled;
use crate::{Build, Command, CommandName, Label, Spec, Start, Table};
use csv::StringRecord;
use keybytes::{Cell, Rid};
use run_spool::SpoolChoice;
use std::alloc::Global;

/// The fields of a record.
pub fn fields<'a>(alloc: Global, record: &'a StringRecord) -> Result<Vec<&'a str>, RecordError>
    ensures ok { IfOk result (λ fields. texts fields.items ≡ fields_of «record».now) }
    ensures refused { IfErr result (λ error. error ≡ RecordError.NoMemory) }
{
    let fields = record.iter().collect(alloc)?;
    Ok(fields)
}

/// The first field, and those behind it.
pub fn first<'a, 'b>(fields: &'b [&'a str]) -> Result<(&'a str, &'b [&'a str]), RecordError>
    ensures ok { IfOk result (λ found. texts fields.now ≡ found.0.now ∷ texts found.1.now) }
    ensures refused { IfErr result (λ error. (error ≡ RecordError.Misspelled) × (texts fields.now ≡ [])) }
{
    match fields.split_first() {
        Some((first, rest)) => Ok((*first, rest)),
        None => Err(RecordError::Misspelled),
    }
}

/// The only field.
fn only<'a>(fields: &[&'a str]) -> Result<&'a str, RecordError>
    ensures ok { IfOk result (λ field. texts fields.now ≡ field.now ∷ []) }
    ensures refused { IfErr result (λ error. (one : PartValue) → ¬ (Fit (one ∷ []) None (texts fields.now))) }
{
    let (field, rest) = first(fields)?;
    none(rest)?;
    Ok(field)
}

pub fn table(alloc: Global, fields: &[&str]) -> Result<Table, RecordError>
    ensures ok { IfOk result (λ table. SpellTable (texts fields.now) table) }
    ensures refused { result ≡ Err RecordError.Misspelled → ¬ (Fits name.Table (texts fields.now)) }
{
    let (slot_limit, columns) = first(fields)?;
    Ok(Table {
        slot_limit: number(slot_limit).ok_or(RecordError::Misspelled)?,
        kinds: each(alloc, columns)?,
    })
}

/// The line of that name with those fields behind it.
pub fn named(alloc: Global, name: CommandName, fields: &[&str]) -> Result<Line, RecordError>
    ensures ok { IfOk result (λ line. SpellLine (written name ∷ texts fields.now) line) }
    ensures refused { result ≡ Err RecordError.Misspelled → ¬ (Fits name (texts fields.now)) }
{
    match name {
        CommandName::Table => Ok(Line::Table(table(alloc, fields)?)),
        CommandName::Row => Ok(Line::Command(Command::Row {
            cells: each(alloc, fields)?,
        })),
        CommandName::Insert => insert(alloc, fields),
        CommandName::Update => update(alloc, fields),
        CommandName::Delete => delete(alloc, fields),
        CommandName::Get => Ok(Line::Command(Command::Get {
            rid: only_rid(fields)?,
        })),
        CommandName::Spools => Ok(Line::Command(Command::Spools {
            choice: only_spools(fields)?,
        })),
        CommandName::Start => start(alloc, fields),
        CommandName::Rest => Ok(Line::Command(Command::Rest {
            spec: only_spec(alloc, fields)?,
        })),
        CommandName::Begin | CommandName::Undo | CommandName::Commit => {
            labelled(alloc, name, fields)
        }
        CommandName::Scan => {
            let (range, worker) = two_counts(fields)?;
            Ok(Line::Command(Command::Scan { range, worker }))
        }
        CommandName::Feed | CommandName::Apply => moving(name, fields),
        CommandName::Digest
        | CommandName::Seal
        | CommandName::Load
        | CommandName::Side
        | CommandName::Pairs => numbered(name, fields),
        CommandName::Fence | CommandName::Switch | CommandName::Abandon => bare(name, fields),
    }
}

/// The command of that name which comes with a label alone.
fn labelled(alloc: Global, which: CommandName, fields: &[&str]) -> Result<Line, RecordError>
    requires { (which ≡ name.Begin) ⊎ (which ≡ name.Undo) ⊎ (which ≡ name.Commit) }
    ensures ok { IfOk result (λ line. SpellLine (written which ∷ texts fields.now) line) }
    ensures refused { result ≡ Err RecordError.Misspelled → ¬ (Fits which (texts fields.now)) }
{
    let label = only_label(alloc, fields)?;
    Ok(Line::Command(match which {
        CommandName::Undo => Command::Undo { label },
        CommandName::Commit => Command::Commit { label },
        _ => Command::Begin { label },
    }))
}

/// The command of that name which moves so many entries of an index.
fn moving(which: CommandName, fields: &[&str]) -> Result<Line, RecordError>
    requires { (which ≡ name.Feed) ⊎ (which ≡ name.Apply) }
    ensures ok { IfOk result (λ line. SpellLine (written which ∷ texts fields.now) line) }
    ensures refused { result ≡ Err RecordError.Misspelled → ¬ (Fits which (texts fields.now)) }
{
    let (index, most) = two_counts(fields)?;
    Ok(Line::Command(match which {
        CommandName::Feed => Command::Feed { index, most },
        _ => Command::Apply { index, most },
    }))
}

/// The command of that name which comes with a number alone.
fn numbered(which: CommandName, fields: &[&str]) -> Result<Line, RecordError>
    requires { (which ≡ name.Digest) ⊎ (which ≡ name.Seal) ⊎ (which ≡ name.Load) ⊎ (which ≡ name.Side) ⊎ (which ≡ name.Pairs) }
    ensures ok { IfOk result (λ line. SpellLine (written which ∷ texts fields.now) line) }
    ensures refused { result ≡ Err RecordError.Misspelled → ¬ (Fits which (texts fields.now)) }
{
    let number = only_count(fields)?;
    Ok(Line::Command(match which {
        CommandName::Digest => Command::Digest { worker: number },
        CommandName::Seal => Command::Seal { worker: number },
        CommandName::Load => Command::Load { index: number },
        CommandName::Side => Command::Side { index: number },
        _ => Command::Pairs { number },
    }))
}

/// The command of that name which comes with nothing.
fn bare(which: CommandName, fields: &[&str]) -> Result<Line, RecordError>
    requires { (which ≡ name.Fence) ⊎ (which ≡ name.Switch) ⊎ (which ≡ name.Abandon) }
    ensures ok { IfOk result (λ line. SpellLine (written which ∷ texts fields.now) line) }
    ensures refused { result ≡ Err RecordError.Misspelled → ¬ (Fits which (texts fields.now)) }
{
    none(fields)?;
    Ok(Line::Command(match which {
        CommandName::Fence => Command::Fence,
        CommandName::Switch => Command::Switch,
        _ => Command::Abandon,
    }))
}

pub fn none(fields: &[&str]) -> Result<(), RecordError>
    ensures ok { IfOk result (λ _. texts fields.now ≡ []) }
    ensures refused { IfErr result (λ error. (error ≡ RecordError.Misspelled) × ¬ (Fit [] None (texts fields.now))) }
{
    match fields {
        [] => Ok(()),
        _ => Err(RecordError::Misspelled),
    }
}

fn only_label(alloc: Global, fields: &[&str]) -> Result<Label, RecordError>
    ensures ok { IfOk result (λ label. AllZip SpellsLabel (texts fields.now) (label ∷ [])) }
    ensures refused { result ≡ Err RecordError.Misspelled → ¬ (Fit (part.Label ∷ []) None (texts fields.now)) }
{
    Label::read(alloc, only(fields)?)
}

fn insert(alloc: Global, fields: &[&str]) -> Result<Line, RecordError>
    ensures ok { IfOk result (λ line. SpellLine (written name.Insert ∷ texts fields.now) line) }
    ensures refused { result ≡ Err RecordError.Misspelled → ¬ (Fits name.Insert (texts fields.now)) }
{
    let (label, columns) = first(fields)?;
    Ok(Line::Command(Command::Insert {
        label: Label::read(alloc, label)?,
        cells: each(alloc, columns)?,
    }))
}

fn update(alloc: Global, fields: &[&str]) -> Result<Line, RecordError>
    ensures ok { IfOk result (λ line. SpellLine (written name.Update ∷ texts fields.now) line) }
    ensures refused { result ≡ Err RecordError.Misspelled → ¬ (Fits name.Update (texts fields.now)) }
{
    let (label, more) = first(fields)?;
    let (place, columns) = first(more)?;
    Ok(Line::Command(Command::Update {
        label: Label::read(alloc, label)?,
        rid: rid(place)?,
        cells: each(alloc, columns)?,
    }))
}

fn delete(alloc: Global, fields: &[&str]) -> Result<Line, RecordError>
    ensures ok { IfOk result (λ line. SpellLine (written name.Delete ∷ texts fields.now) line) }
    ensures refused { result ≡ Err RecordError.Misspelled → ¬ (Fits name.Delete (texts fields.now)) }
{
    let (label, more) = first(fields)?;
    Ok(Line::Command(Command::Delete {
        label: Label::read(alloc, label)?,
        rid: only_rid(more)?,
    }))
}

fn only_rid(fields: &[&str]) -> Result<Rid, RecordError>
    ensures ok { IfOk result (λ rid. AllZip SpellsRid (texts fields.now) (rid ∷ [])) }
    ensures refused { result ≡ Err RecordError.Misspelled → ¬ (Fits name.Get (texts fields.now)) }
{
    rid(only(fields)?)
}

fn only_count(fields: &[&str]) -> Result<usize, RecordError>
    ensures ok { IfOk result (λ number. AllZip SpellsNumber (texts fields.now) (number ∷ [])) }
    ensures refused { result ≡ Err RecordError.Misspelled → ¬ (Fit (part.Number ∷ []) None (texts fields.now)) }
{
    count(only(fields)?)
}

fn two_counts(fields: &[&str]) -> Result<(usize, usize), RecordError>
    ensures ok { IfOk result (λ numbers. AllZip SpellsNumber (texts fields.now) (numbers.0 ∷ numbers.1 ∷ [])) }
    ensures refused { result ≡ Err RecordError.Misspelled → ¬ (Fits name.Scan (texts fields.now)) }
{
    let (one, more) = first(fields)?;
    Ok((count(one)?, only_count(more)?))
}

fn only_spec(alloc: Global, fields: &[&str]) -> Result<Spec, RecordError>
    ensures ok { IfOk result (λ spec. AllZip SpellsSpec (texts fields.now) (spec ∷ [])) }
    ensures refused { result ≡ Err RecordError.Misspelled → ¬ (Fits name.Rest (texts fields.now)) }
{
    Spec::spelled(alloc, only(fields)?)
}

pub fn only_spools(fields: &[&str]) -> Result<SpoolChoice, RecordError>
    ensures ok { IfOk result (λ choice. AllZip SpellsSpools (texts fields.now) (choice ∷ [])) }
    ensures refused { result ≡ Err RecordError.Misspelled → ¬ (Fits name.Spools (texts fields.now)) }
{
    spools(only(fields)?).ok_or(RecordError::Misspelled)
}

/// The workers of a build, and what else it comes with.
fn start(alloc: Global, fields: &[&str]) -> Result<Line, RecordError>
    ensures ok { IfOk result (λ line. SpellLine (written name.Start ∷ texts fields.now) line) }
    ensures refused { result ≡ Err RecordError.Misspelled → ¬ (Fits name.Start (texts fields.now)) }
{
    let (workers, more) = first(fields)?;
    let workers = count(workers)?;
    let Build {
        quota,
        dealing,
        specs,
    } = build(alloc, more)?;
    Ok(Line::Command(Command::Start(Start {
        workers,
        quota,
        dealing,
        specs,
    })))
}

/// The quota, the dealing and the indexes of a build.
pub fn build(alloc: Global, fields: &[&str]) -> Result<Build, RecordError>
    ensures ok { IfOk result (λ build. SpellBuild (texts fields.now) build) }
    ensures refused { result ≡ Err RecordError.Misspelled
        → ¬ (Fit (part.Number ∷ part.Dealing ∷ part.Spec ∷ []) (Some part.Spec) (texts fields.now)) }
{
    let (quota, more) = first(fields)?;
    let (ranges, indexes) = first(more)?;
    Ok(Build {
        quota: count(quota)?,
        dealing: dealing(alloc, ranges)?,
        specs: each(alloc, indexes)?,
    })
}
