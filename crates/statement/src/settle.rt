// The settle.
ghost use Rattle.statement.specs.Statements.{Settled};
ghost use Rattle.statement.specs.Histories.{History};
ghost use Rattle.statement.specs.Promises.{Promises};

use super::book::Book;
use super::changes::changes;
use super::run::Run;
use sharing::SharingRule;
use tables::Refusal;

impl Book {
    /// Works the hour out by a rule, with new deemed energies, and bills each account what its new amount differs from what it has
    /// been billed. Refused, nothing changes.
    pub fn settle<R: SharingRule>(&mut self, rule: &R) -> Result<Run, Refusal>
        ensures settled { Settled (R.SharingRule.shares rule.now) self.old self.new result }
        ensures history { History self.new }
        ensures promises { Promises self.new }
    {
        let amounts = self.statement.work_out(rule)?;
        let lines = changes(
            self.statement.runs + 1,
            self.statement.records.parties(),
            &amounts.intervals,
            &self.totals,
        );
        let run = self.statement.add_run(&amounts, &lines)?;
        self.totals = amounts.intervals;
        Ok(run)
    }
}
