//! From a text to its script, of whatever kind, or to its first bad record.
ghost use Rattle.std.specs.Prelude.{◌≡◌, ℕ, [], IfOk, IfErr, OnOk, MatchOption};
ghost use Rattle.csv.specs.Records.{fields_of};
ghost use Rattle.script.specs.Explanations.{Explains, ExplainsStop};
ghost use Rattle.script.specs.Grammars.{AreAllGood, HasRead, IsFirstBadIn, SpellsAll};
ghost use Rattle.script.specs.Stops.{FailsToSpell, StopsAt, TakesLine};

use crate::cause::Cause;
use crate::draft::Draft;
use crate::parse::fields;
use crate::record_error::RecordError;
use crate::records::Records;
use crate::stop::Stop;
use crate::{CheckError, Explanation, Misfit, ScriptError};
use csv::StringRecord;
use std::alloc::Global;

/// Looks at all records of a text. Records are numbered from 1, the ones that are passed over among them.
pub fn parse<D: Draft>(alloc: Global, text: &[u8]) -> Result<D::Script, ScriptError>
    ensures good { IfOk result (λ script. SpellsAll D.grammar D.gives text.now script) }
    ensures none_bad { OnOk result ((number : ℕ) → ¬ (IsFirstBadIn D.grammar text.now number)) }
    ensures bad { (number : ℕ) → result ≡ Err (ScriptError.Bad number) → IsFirstBadIn D.grammar text.now number }
    ensures no_other { (number other : ℕ) → result ≡ Err (ScriptError.Bad number) → IsFirstBadIn D.grammar text.now other → other ≡ number }
{
    let mut draft = D::new(alloc);
    let mut record = StringRecord::new(alloc);
    match read_lines(alloc, text, &mut draft, &mut record) {
        Ok(number) => match draft.missing() {
            None => Ok(draft.finish()),
            Some(_) => Err(ScriptError::Bad(number)),
        },
        Err(stop) => Err(stop.cause.at(stop.number)),
    }
}

/// Looks at all records of a text, and answers how many there are, or what is wrong with the first bad one.
pub fn check<D: Draft>(alloc: Global, text: &[u8]) -> Result<usize, CheckError>
    ensures good { IfOk result (λ count. AreAllGood D.grammar text.now count) }
    ensures bad { IfErr result (λ error. Explains D.grammar text.now error) }
{
    let mut draft = D::new(alloc);
    let mut record = StringRecord::new(alloc);
    match read_lines(alloc, text, &mut draft, &mut record) {
        Ok(number) => match draft.missing() {
            None => Ok(number - 1),
            Some(explanation) => Err(CheckError::Bad {
                number,
                explanation,
            }),
        },
        Err(stop) => Err(explain::<D>(alloc, stop, &record)),
    }
}

/// Puts the lines of a text into the draft, and answers the number behind its last record. Where it stops before, the
/// record holds the fields that were read last.
fn read_lines<D: Draft>(
    alloc: Global,
    text: &[u8],
    draft: &mut D,
    record: &mut StringRecord,
) -> Result<usize, Stop>
    requires { D.has draft.old [] }
    ensures ended { IfOk result (λ number. HasRead D.grammar (D.has draft.new) text.now [] number) }
    ensures stopped { IfErr result (λ stop. StopsAt D.grammar text.now (fields_of «record».new) stop) }
{
    let mut records = Records::new(alloc, text);
    for number in 1..usize::MAX {
        match next_line::<D>(alloc, &mut records, record) {
            Ok(Some(line)) => {
                if let Err(cause) = draft.add(number, line) {
                    return Err(Stop { number, cause });
                }
            }
            Ok(None) => return Ok(number),
            Err(cause) => return Err(Stop { number, cause }),
        }
    }
    Err(Stop {
        number: usize::MAX,
        cause: Cause::NoMemory,
    })
}

/// The line that the next record is, if there is one.
fn next_line<D: Draft>(
    alloc: Global,
    records: &mut Records,
    record: &mut StringRecord,
) -> Result<Option<D::Line>, Cause>
    ensures found { IfOk result (λ found. MatchOption found (records.old ≡ []) (λ line. TakesLine D.grammar records.old records.new line)) }
    ensures refused { IfErr result (λ cause. FailsToSpell D.grammar records.old (fields_of «record».new) cause) }
{
    if !records.read(record)? {
        return Ok(None);
    }
    let line = line::<D>(alloc, record)?;
    Ok(Some(line))
}

/// What a record asks for.
pub fn line<D: Draft>(alloc: Global, record: &StringRecord) -> Result<D::Line, RecordError>
    ensures ok { IfOk result (λ line. D.grammar.spells (fields_of «record».now) line) }
    ensures refused { result ≡ Err RecordError.Misspelled → ¬ (D.grammar.has_shape (fields_of «record».now)) }
{
    let fields = fields(alloc, record)?;
    D::line(alloc, fields.as_slice())
}

/// What is wrong with the fields of a record, if anything is.
pub fn misfit<D: Draft>(alloc: Global, record: &StringRecord) -> Result<Option<Misfit>, RecordError>
    ensures { IfOk result (λ found. MatchOption found (D.grammar.has_shape (fields_of «record».now))
        (λ misfit. D.grammar.tells_misfit (fields_of «record».now) misfit)) }
{
    let fields = fields(alloc, record)?;
    D::misfit(alloc, fields.as_slice())
}

/// What is wrong with the record at which the reading stopped, whose fields are in the record where they could be read.
fn explain<D: Draft>(alloc: Global, stop: Stop, record: &StringRecord) -> CheckError
    requires { stop.cause ≡ Cause.Misspelled → ¬ (D.grammar.has_shape (fields_of «record».now)) }
    ensures { ExplainsStop D.grammar stop (fields_of «record».now) result }
{
    let explanation = match stop.cause {
        Cause::NotText => Explanation::NotText,
        Cause::Misplaced(name) => Explanation::Misplaced(name),
        Cause::Misspelled => match misfit::<D>(alloc, record) {
            Ok(Some(misfit)) => Explanation::Misfit(misfit),
            Ok(None) => unreachable!(),
            Err(_) => return CheckError::NoMemory,
        },
        Cause::NoMemory => return CheckError::NoMemory,
        Cause::CannotRead => return CheckError::CannotRead,
    };
    CheckError::Bad {
        number: stop.number,
        explanation,
    }
}
