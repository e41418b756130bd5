use crate::cause::Cause;
use crate::record_error::RecordError;
use crate::{Explanation, Misfit};
use std::alloc::Global;

/// What was read so far of a script of one kind.
pub trait Draft: Drop {
    ghost use Rattle.std.specs.Prelude.{◌≡◌, ◌+◌, List, [], ◌∷◌, ◌++◌, length, IfOk, IfErr, IfSome, IfNone, OnOk, MatchOption};
    ghost use Rattle.script.specs.Fields.{texts};
    ghost use Rattle.script.specs.Grammars.{Grammar, IsClear, MayStand, names};
    ghost use Rattle.script.specs.Explanations.{IsLacking};
    ghost use Rattle.script.specs.Stops.{IsNotPut};

    /// What a record turned out to be.
    type Line: Drop;

    type Script: Drop;

    /// The names of records.
    ghost Name: { Type 0 };

    ghost grammar: { Grammar Name Self.Line };

    /// The draft has what the lines give.
    ghost has: { Self → List Self.Line → Type 0 };

    /// The script has what the lines give.
    ghost gives: { List Self.Line → Self.Script → Type 0 };

    fn new(alloc: Global) -> Self
        ensures blank { has result [] }
        ensures clear { IsClear grammar };

    /// What the fields of a record ask for.
    fn line(alloc: Global, fields: &[&str]) -> Result<Self::Line, RecordError>
        ensures ok { IfOk result (λ line. grammar.spells (texts fields.now) line) }
        ensures refused { result ≡ Err RecordError.Misspelled → ¬ (grammar.has_shape (texts fields.now)) };

    /// What is wrong with the fields of a record, if anything is.
    fn misfit(alloc: Global, fields: &[&str]) -> Result<Option<Misfit>, RecordError>
        ensures { IfOk result (λ found. MatchOption found (grammar.has_shape (texts fields.now)) (λ misfit. grammar.tells_misfit (texts fields.now) misfit)) };

    /// Adds the line of that number, unless it may not come behind those that were read.
    fn add(&mut self, number: usize, line: Self::Line) -> Result<(), Cause>
        ensures ok { OnOk result ((lines : List Self.Line) → has self.old lines → number ≡ length lines + 1
            → MayStand grammar lines line × has self.new (lines ++ line ∷ [])) }
        ensures refused { IfErr result (λ cause. (lines : List Self.Line) → has self.old lines → IsNotPut grammar lines line cause) };

    /// What is missing where no record is left, if anything is.
    fn missing(&self) -> Option<Explanation>
        ensures some { IfSome result (λ missing. (lines : List Self.Line) → has self.now lines → IsLacking grammar lines missing) }
        ensures none { IfNone result ((lines : List Self.Line) → has self.now lines → grammar.are_whole (names grammar lines)) };

    /// The script, of which nothing may be missing.
    fn finish(self) -> Self::Script
        requires { (lines : List Self.Line) × has self lines × grammar.are_whole (names grammar lines) }
        ensures { (lines : List Self.Line) → has self lines → gives lines result };
}
