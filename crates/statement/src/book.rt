// The book of an hour. Of every `Book` what `Kept` says is true: some history of calls led to it.
ghost use Rattle.std.specs.Prelude.{◌≡◌, IfOk};
ghost use Rattle.records.specs.Calls.{answer_to};
ghost use Rattle.records.specs.Standing.{Stands};
ghost use Rattle.records.specs.Kept.{KeepsRecords};
ghost use Rattle.records.specs.Sound.{Step, Grows};
ghost use Rattle.statement.specs.Ranges.{most_lines, most_runs};
ghost use Rattle.statement.specs.Statements.{opened, taken};
ghost use Rattle.statement.specs.Histories.{History, HistoriesKeepRecords};
ghost use Rattle.statement.specs.Promises.{Promises, HistoriesKeepPromises, OneOutcome};

use super::statement::{MOST_LINES, MOST_RUNS, Statement};
use charges::IntervalAmounts;
use deemed::INTERVALS;
use records::Call;
use std::alloc::{AllocError, Global};
use std::marker::Model;
use tables::Refusal;

#[derive(Drop)]
pub struct Book {
    pub(super) statement: Statement,
    // what has been billed: the amounts of the last run
    pub(super) totals: [IntervalAmounts; INTERVALS],
}

impl Model for Book {
    ghost use Rattle.statement.specs.declared.statement.Statement.{Statement};

    ghost Value = { Statement };

    ghost use Rattle.statement.specs.Tallies.{Kept};

    ghost view = { λ b. b.statement };

    ghost invariant = { λ b. Kept b.statement b.totals };
}

impl Book {
    /// Nothing entered yet, no line and no run. The tables have so many rows, and no more than the full numbers; no later call
    /// allocates.
    pub fn open(
        alloc: Global,
        areas: usize,
        parties: usize,
        resources: usize,
        lines: usize,
    ) -> Result<Book, AllocError>
        ensures empty { IfOk result (λ book. book ≡ opened areas parties resources lines) }
        ensures limits { (MOST_LINES ≡ most_lines) × (MOST_RUNS ≡ most_runs) }
        ensures history { IfOk result History }
        ensures promises { IfOk result Promises }
        ensures kept { IfOk result (λ _. HistoriesKeepRecords) }
    {
        let statement = Statement::open(alloc, areas, parties, resources, lines)?;
        Ok(Book {
            statement,
            totals: [IntervalAmounts::none(); INTERVALS],
        })
    }

    /// The one way in for what is entered and posted: every such call, as a value. Refused, nothing changes.
    pub fn take(&mut self, call: Call) -> Result<(), Refusal>
        ensures answer { result ≡ answer_to call self.old.records }
        ensures statement { self.new ≡ taken call self.old }
        ensures step { IfOk result (λ _. Step self.old.records self.new.records) }
        ensures stands { IfOk result (λ _. Stands call self.new.records) }
        ensures kept { KeepsRecords call self.old.records self.new.records }
        ensures grows { Grows self.old.records self.new.records }
        ensures history { History self.new }
        ensures promises { Promises self.new }
    {
        self.statement.take(call)
    }

    /// The laws over every history, and that a settle has one outcome. It changes nothing, and tells nothing but what its
    /// contract says.
    pub fn law(&self)
        ensures law { HistoriesKeepPromises }
        ensures kept { HistoriesKeepRecords }
        ensures one_outcome { OneOutcome }
        ensures history { History self.now }
        ensures promises { Promises self.now }
    {
        let _ = &self.totals;
    }
}
