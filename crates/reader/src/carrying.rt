// What an order does to a book.
ghost use Rattle.statement.specs.Statements.{Settled};
ghost use Rattle.reader.specs.Carrying.{Carried, refusal_in, shares_by};
ghost use Rattle.statement.specs.Histories.{History};

use blocks::{Order, Rule};
use sharing::{LargestRemainder, Running};
use statement::{Book, Run};
use tables::Refusal;

// Not inlined: its frame of hundreds of kilobytes would be every line's.
#[inline(never)]
fn settle(book: &mut Book, rule: Rule) -> Result<Run, Refusal>
    ensures settled { Settled (shares_by rule) book.old book.new result }
    ensures history { History book.new }
{
    match rule {
        Rule::LargestRemainder => book.settle(&LargestRemainder),
        Rule::Running => book.settle(&Running),
    }
}

// Carries an order out. Refused, nothing changes.
pub(crate) fn carry_out(book: &mut Book, order: Order) -> Result<(), Refusal>
    ensures carried { Carried order book.old book.new (refusal_in result) }
    ensures history { History book.new }
{
    match order {
        Order::Call(call) => book.take(call),
        Order::Settle(rule) => settle(book, rule).map(|_| ()),
    }
}
