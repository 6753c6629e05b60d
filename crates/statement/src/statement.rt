// What contracts see of a book.
ghost use Rattle.std.specs.Prelude.{◌≡◌, ◌<◌, IfOk, Result};
ghost use Rattle.tables.specs.declared.refusal.Refusal.{Refusal};
ghost use Rattle.records.specs.Calls.{answer_to};
ghost use Rattle.records.specs.Standing.{Stands};
ghost use Rattle.records.specs.Kept.{KeepsRecords};
ghost use Rattle.records.specs.Sound.{Step, Grows};
ghost use Rattle.statement.specs.Ranges.{most_runs};
ghost use Rattle.statement.specs.Statements.{opened, taken, refusal};
ghost use Rattle.statement.specs.Working.{HourWorkedOut, RunBooked};

use super::line::Line;
use super::run::Run;
use charges::{HourAmounts, work_out};
use records::{Call, Records};
use sharing::SharingRule;
use std::alloc::{AllocError, Global};
use tables::{Part, Place, Reason, Refusal, Table};

/// The full numbers of a book.
pub const MOST_LINES: usize = 4_096;

/// The most runs of a book.
pub const MOST_RUNS: u16 = 65_535;

#[derive(Drop)]
pub(crate) struct Statement {
    pub(crate) records: Records,
    pub(crate) lines: Table<Line>,
    pub(crate) runs: u16,
    pub(crate) settled: bool,
}

// A refusal of this part. It has no place.
pub(crate) fn refused(reason: Reason) -> Refusal
    ensures { result ≡ refusal reason }
{
    Refusal {
        reason,
        part: Part::Statement,
        place: Place { interval: 0, id: 0 },
    }
}

impl Statement {
    pub(crate) fn open(
        alloc: Global,
        areas: usize,
        parties: usize,
        resources: usize,
        lines: usize,
    ) -> Result<Statement, AllocError>
        ensures { IfOk result (λ s. s ≡ opened areas parties resources lines) }
    {
        let records = Records::open(alloc, areas, parties, resources)?;
        let lines = Table::open(alloc, lines.min(MOST_LINES))?;
        Ok(Statement {
            records,
            lines,
            runs: 0,
            settled: false,
        })
    }

    // An entering or posting call.
    pub(crate) fn take(&mut self, call: Call) -> Result<(), Refusal>
        ensures answer { result ≡ answer_to call self.old.records }
        ensures statement { self.new ≡ taken call self.old }
        ensures stands { IfOk result (λ _. Stands call self.new.records) }
        ensures step { IfOk result (λ _. Step self.old.records self.new.records) }
        ensures kept { KeepsRecords call self.old.records self.new.records }
        ensures grows { Grows self.old.records self.new.records }
    {
        self.records.take(call)?;
        self.settled = false;
        Ok(())
    }

    // The new amounts, where a run is left.
    pub(crate) fn work_out<R: SharingRule>(&self, rule: &R) -> Result<HourAmounts, Refusal>
        ensures { HourWorkedOut (R.SharingRule.shares rule.now) self.now result }
    {
        if self.runs == MOST_RUNS {
            return Err(refused(Reason::Full));
        }
        work_out(&self.records, rule).map_err(|fault| fault.refusal())
    }

    // Adds a run with its lines, and keeps the new deemed energies.
    pub(crate) fn add_run(&mut self, amounts: &HourAmounts, lines: &[Line]) -> Result<Run, Refusal>
        requires { self.old.runs < most_runs }
        ensures { RunBooked amounts.now lines.now self.old self.new result }
    {
        self.lines
            .add_all(lines)
            .map_err(|_| refused(Reason::LinesFull))?;
        self.records.keep_deemed(&amounts.deemed);
        self.runs += 1;
        self.settled = true;
        Ok(Run {
            number: self.runs,
            lines: lines.len(),
        })
    }
}
