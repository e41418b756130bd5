//! How the fields of a record are spelled.
ghost use Rattle.std.specs.Prelude.{◌≡◌, ◌==◌, ℕ, ◌<◌, Bool, false, List, [], ◌∷◌, ◌++◌, IfOk, IfErr, IfSome, IfNone, Option, Some, None};
ghost use Rattle.std.specs.Char.{is_ascii_digit};
ghost use Rattle.std.specs.List.{AllZip, slice_split};
ghost use Rattle.keybytes.specs.declared.key_col.KeyCol.{KeyCol as KeyColValue};
ghost use Rattle.keybytes.specs.declared.rid.Rid.{Rid as RidValue};
ghost use Rattle.keybytes.specs.declared.when.When.{When as WhenValue};
ghost use Rattle.scan_range.specs.declared.dealing.Dealing.{Dealing as DealingValue};
ghost use Rattle.run_spool.specs.declared.choice.SpoolChoice.{SpoolChoice as SpoolChoiceValue};
ghost use Rattle.script.specs.Shapes.{Fit};
ghost use Rattle.script.specs.declared.part.Part.TheVariants as part;
ghost use Rattle.script.specs.Fields.{number_of, int_of, slot_of, texts, SpellEach, SpellsDealing, SpellsRid};
ghost use Rattle.script.specs.Fields.{spec_front, SpellsKey, SpellsNumberBefore, SpellsSession, SpellsSpools, SpellsWhen};

use crate::Spec;
use crate::record_error::RecordError;
use crate::spelled::{Field, Spelled};
use keybytes::{Cell, KeyCol, Kind, Rid, Text, When};
use run_spool::SpoolChoice;
use scan_range::Dealing;
use std::alloc::Global;

/// How many sessions a race may have.
const SESSIONS_MAX: u32 = 8;

/// A number: decimal digits, at most 4,294,967,295.
pub fn number(text: &str) -> Option<u32>
    ensures { result ≡ number_of text.now }
{
    if text.starts_with('+') {
        return None;
    }
    text.parse::<u32>().ok()
}

/// A number that counts or names something.
pub fn count(text: &str) -> Result<usize, RecordError>
    ensures ok { IfOk result (λ number. number_of text.now ≡ Some number) }
    ensures refused { IfErr result (λ error. (error ≡ RecordError.Misspelled) × (number_of text.now ≡ None)) }
{
    match number(text) {
        Some(number) => Ok(number as usize),
        None => Err(RecordError::Misspelled),
    }
}

/// The number of a session, 1 to 8.
pub fn session(text: &str) -> Option<usize>
    ensures some { IfSome result (λ session. SpellsSession text.now session) }
    ensures none { IfNone result ((session : ℕ) → SpellsSession text.now session → ⊥) }
{
    match number(text) {
        Some(session) if (1..=SESSIONS_MAX).contains(&session) => Some(session as usize),
        _ => None,
    }
}

/// The number of a slot: decimal digits, at most 65,535.
fn slot(text: &str) -> Option<u16>
    ensures { result ≡ slot_of text.now }
{
    if text.starts_with('+') {
        return None;
    }
    text.parse::<u16>().ok()
}

/// A RID: a page and a slot, joined by a point.
pub fn rid(text: &str) -> Result<Rid, RecordError>
    ensures ok { IfOk result (λ rid. SpellsRid text.now rid) }
    ensures refused { IfErr result (λ error. (error ≡ RecordError.Misspelled) × ((rid : RidValue) → SpellsRid text.now rid → ⊥)) }
{
    match text.split_once('.') {
        Some((page_text, slot_text)) => match (number(page_text), slot(slot_text)) {
            (Some(page), Some(slot)) => Ok(Rid { page, slot }),
            _ => Err(RecordError::Misspelled),
        },
        None => Err(RecordError::Misspelled),
    }
}

/// A number of 64 bits: digits, with or without `-` in front.
fn int(text: &str) -> Option<i64>
    ensures { result ≡ int_of text.now }
{
    if text.starts_with('+') {
        return None;
    }
    text.parse::<i64>().ok()
}

impl Spelled for Cell {
    ghost use Rattle.script.specs.Fields.{SpellsCell};

    ghost spells = { SpellsCell };

    /// `~` for Null, digits with or without `-` for a number, `=` and a text, `true` or `false`.
    fn spelled(alloc: Global, text: &str) -> Result<Cell, RecordError> {
        if let Some(text) = text.strip_prefix('=') {
            let string = String::from_str(alloc, text)?;
            return Ok(Cell::Text(Text::new(string)));
        }
        match text {
            "~" => Ok(Cell::Null),
            "true" => Ok(Cell::Flag(true)),
            "false" => Ok(Cell::Flag(false)),
            _ => match int(text) {
                Some(number) => Ok(Cell::Int(number)),
                None => Err(RecordError::Misspelled),
            },
        }
    }
}

impl Field for Cell {
    ghost part = { part.Cell };

    ghost is_part = { λ _ spelled. spelled };
}

impl Spelled for Kind {
    ghost use Rattle.script.specs.Fields.{SpellsKind};

    ghost spells = { SpellsKind };

    /// `int`, `text` or `flag`.
    fn spelled(_alloc: Global, text: &str) -> Result<Kind, RecordError> {
        match text {
            "int" => Ok(Kind::Int),
            "text" => Ok(Kind::Text),
            "flag" => Ok(Kind::Flag),
            _ => Err(RecordError::Misspelled),
        }
    }
}

impl Field for Kind {
    ghost part = { part.Kind };

    ghost is_part = { λ _ spelled. spelled };
}

impl Spelled for KeyCol {
    ghost use Rattle.script.specs.Fields.{SpellsColumn};

    ghost spells = { SpellsColumn };

    /// The number of a column, and behind it a `d` where it descends.
    fn spelled(_alloc: Global, text: &str) -> Result<KeyCol, RecordError> {
        if let Some(column) = number(text) {
            return Ok(KeyCol {
                column: column as usize,
                descending: false,
            });
        }
        let Some(digits) = text.strip_suffix('d') else {
            return Err(RecordError::Misspelled);
        };
        match number(digits) {
            Some(column) => Ok(KeyCol {
                column: column as usize,
                descending: true,
            }),
            None => Err(RecordError::Misspelled),
        }
    }
}

impl Spelled for u32 {
    ghost use Rattle.script.specs.Fields.{SpellsNumber};

    ghost spells = { SpellsNumber };

    /// Decimal digits, at most 4,294,967,295.
    fn spelled(_alloc: Global, text: &str) -> Result<u32, RecordError> {
        number(text).ok_or(RecordError::Misspelled)
    }
}

/// Values whose texts are joined by `;`.
fn joined<T: Spelled>(alloc: Global, text: &str) -> Result<Vec<T>, RecordError>
    ensures ok { IfOk result (λ values. AllZip T.spells (slice_split (λ c. c == 59) text.now) values.items) }
    ensures refused { result ≡ Err RecordError.Misspelled → (values : List T) → AllZip T.spells (slice_split (λ c. c == 59) text.now) values → ⊥ }
{
    let mut values = Vec::new(alloc);
    for part in text.split(';') {
        values.push(T::spelled(alloc, part)?)?;
    }
    Ok(values)
}

/// One or more values, of which each field spells one.
pub fn each<T: Field>(alloc: Global, fields: &[&str]) -> Result<Vec<T>, RecordError>
    ensures ok { IfOk result (λ values. SpellEach T.spells (texts fields.now) values.items) }
    ensures refused { result ≡ Err RecordError.Misspelled → ¬ (Fit (T.part ∷ []) (Some T.part) (texts fields.now)) }
{
    if fields.is_empty() {
        return Err(RecordError::Misspelled);
    }
    let mut values = Vec::with_capacity(alloc, fields.len())?;
    for field in fields {
        values.push(T::spelled(alloc, field)?)?;
    }
    Ok(values)
}

/// The number before the first such sign, and what stands behind the sign.
fn number_before(sign: char, text: &str) -> Option<(usize, &str)>
    requires ascii { sign < 128 }
    requires no_digit { is_ascii_digit sign ≡ false }
    ensures some { IfSome result (λ found. SpellsNumberBefore text.now found.0 (sign ∷ []) found.1.now) }
    ensures none { IfNone result ((number : ℕ) (rest : List ℕ) → SpellsNumberBefore text.now number (sign ∷ []) rest → ⊥) }
{
    let (digits, rest) = text.split_once(sign)?;
    let number = number(digits)?;
    Some((number as usize, rest))
}

/// A condition: the number of a column, and behind it `=` and a cell, `<` and a cell, or `~` for Null.
fn when(alloc: Global, text: &str) -> Result<When, RecordError>
    ensures ok { IfOk result (λ condition. SpellsWhen text.now condition) }
    ensures refused { result ≡ Err RecordError.Misspelled → (condition : WhenValue) → SpellsWhen text.now condition → ⊥ }
{
    if let Some((column, given)) = number_before('=', text) {
        return Ok(When::Equal(column, Cell::spelled(alloc, given)?));
    }
    if let Some((column, bound)) = number_before('<', text) {
        return Ok(When::Less(column, Cell::spelled(alloc, bound)?));
    }
    match number_before('~', text) {
        Some((column, "")) => Ok(When::IsNull(column)),
        _ => Err(RecordError::Misspelled),
    }
}

/// The columns of a key, joined by `;`, and behind them `?` and a condition, where there is one.
fn key(alloc: Global, text: &str) -> Result<(Vec<KeyCol>, Option<When>), RecordError>
    ensures ok { IfOk result (λ key. SpellsKey text.now key.0.items key.1) }
    ensures refused { result ≡ Err RecordError.Misspelled → (columns : List KeyColValue) (asked : Option WhenValue) → ¬ (SpellsKey text.now columns asked) }
{
    match text.split_once('?') {
        Some((columns_text, condition)) => {
            let columns = joined(alloc, columns_text)?;
            let condition = when(alloc, condition)?;
            Ok((columns, Some(condition)))
        }
        None => {
            let columns = joined(alloc, text)?;
            Ok((columns, None))
        }
    }
}

/// Whether a key is unique, by the `u:` or `n:` before it, and what stands behind that.
fn front(text: &str) -> Option<(bool, &str)>
    ensures some { IfSome result (λ found. text.now ≡ spec_front found.0 ++ found.1.now) }
    ensures none { IfNone result ((unique : Bool) (rest : List ℕ) → text.now ≡ spec_front unique ++ rest → ⊥) }
{
    match text.split_once(':') {
        Some(("n", rest)) => Some((false, rest)),
        Some(("u", rest)) => Some((true, rest)),
        _ => None,
    }
}

impl Spelled for Spec {
    ghost use Rattle.script.specs.Fields.{SpellsSpec};

    ghost spells = { SpellsSpec };

    /// `n:` or, for a unique one, `u:`, the columns joined by `;`, and `?` and a condition, where it has one.
    fn spelled(alloc: Global, text: &str) -> Result<Spec, RecordError> {
        let (unique, rest) = front(text).ok_or(RecordError::Misspelled)?;
        let (columns, condition) = key(alloc, rest)?;
        Ok(Spec {
            unique,
            columns,
            condition,
        })
    }
}

impl Field for Spec {
    ghost part = { part.Spec };

    ghost is_part = { λ _ spelled. spelled };
}

/// How the pages are dealt into ranges: the ends of the ranges joined by `;`, or `even:` and how many there are.
pub fn dealing(alloc: Global, text: &str) -> Result<Dealing, RecordError>
    ensures ok { IfOk result (λ dealing. SpellsDealing text.now dealing) }
    ensures refused { result ≡ Err RecordError.Misspelled → (dealing : DealingValue) → SpellsDealing text.now dealing → ⊥ }
{
    match text.strip_prefix("even:") {
        Some(ranges) => Ok(Dealing::Even(count(ranges)?)),
        None => Ok(Dealing::Ends(joined(alloc, text)?)),
    }
}

/// The kind of the spools of builds.
pub fn spools(text: &str) -> Option<SpoolChoice>
    ensures some { IfSome result (λ choice. SpellsSpools text.now choice) }
    ensures none { IfNone result ((choice : SpoolChoiceValue) → SpellsSpools text.now choice → ⊥) }
{
    match text {
        "plain" => Some(SpoolChoice::Plain),
        "prefix" => Some(SpoolChoice::Prefix),
        "mixed" => Some(SpoolChoice::Mixed),
        _ => None,
    }
}
