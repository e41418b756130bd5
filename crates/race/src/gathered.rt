ghost use Rattle.std.specs.Prelude.{◌≡◌, ◌≤◌, ◌<◌, ◌++◌, ◌∷◌, [], option_to_list, IfOk, vec_len, vec_capacity};
ghost use Rattle.race.specs.OneLog.{HasKept};

use crate::check_line::CheckLine;
use crate::ended::Ended;
use crate::session_line::SessionLine;
use builder_core::INDEXES_MAX;
use crew::{Known, Opened, Receipt};
use keybytes::Fault;
use std::alloc::Global;

/// What the sessions of a race leave: a line for each, what each knows of the log, and all receipts together, also that of the build. Beside these stands
/// room for what is told in the end.
#[derive(Drop)]
pub struct Gathered<T: Opened> {
    pub lines: Vec<SessionLine>,
    pub known: Vec<Known<T>>,
    pub receipts: Vec<Receipt<T>>,
    /// An empty list, for a line of each ready index.
    pub checks: Vec<CheckLine>,
    ghost none_checked: { checks.items ≡ [] },
    ghost room_for_checks: { 8 ≤ vec_capacity checks },
}

impl<T: Opened> Gathered<T> {
    /// Nothing yet, with room for what so many sessions leave, and for so many receipts.
    pub fn new(alloc: Global, sessions: usize, receipts: usize) -> Result<Gathered<T>, Fault>
        ensures none { IfOk result (λ made. (made.lines.items ≡ []) × (made.known.items ≡ []) × (made.receipts.items ≡ [])) }
        ensures room { IfOk result (λ made. (sessions ≤ vec_capacity made.lines) × (sessions ≤ vec_capacity made.known)) }
        ensures room_for_receipts { IfOk result (λ made. receipts ≤ vec_capacity made.receipts) }
    {
        Ok(Gathered {
            lines: Vec::with_capacity(alloc, sessions)?,
            known: Vec::with_capacity(alloc, sessions)?,
            receipts: Vec::with_capacity(alloc, receipts)?,
            checks: Vec::with_capacity(alloc, INDEXES_MAX)?,
        })
    }

    /// The build's receipt comes first, if there is one. There is room for it.
    pub fn keep_first(&mut self, receipt: Option<Receipt<T>>)
        requires none { self.old.receipts.items ≡ [] }
        requires room { 0 < vec_capacity self.old.receipts }
        ensures receipts { self.new.receipts.items ≡ option_to_list receipt }
        ensures lines { self.new.lines ≡ self.old.lines }
        ensures known { self.new.known ≡ self.old.known }
    {
        if let Some(receipt) = receipt {
            self.receipts.push_reserved(receipt);
        }
    }

    /// What the session leaves comes behind what is there. A receipt for which there is no memory counts as missing; room was made for all before.
    pub fn put(&mut self, ended: Ended<T>)
        requires { (vec_len self.old.lines < vec_capacity self.old.lines) × (vec_len self.old.known < vec_capacity self.old.known) }
        ensures lines { self.new.lines.items ≡ self.old.lines.items ++ ended.line ∷ [] }
        ensures known { self.new.known.items ≡ self.old.known.items ++ ended.left.log ∷ [] }
        ensures receipts { HasKept self.old.receipts.items ended.left.receipts self.new.receipts.items }
        ensures room { (vec_capacity self.new.lines ≡ vec_capacity self.old.lines) × (vec_capacity self.new.known ≡ vec_capacity self.old.known) }
    {
        let Ended {
            line,
            receipts,
            known,
        } = ended;
        self.lines.push_reserved(line);
        self.known.push_reserved(known);
        keep_all(&mut self.receipts, receipts);
    }
}

/// Puts the receipts behind the others, as far as memory allows it.
fn keep_all<T: Opened>(kept: &mut Vec<Receipt<T>>, receipts: Vec<Receipt<T>>)
    ensures { HasKept kept.old.items receipts.items kept.new.items }
{
    for receipt in receipts {
        let _kept = kept.push(receipt);
    }
}
