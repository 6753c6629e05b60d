// What a line of values orders.
use super::rule::Rule;
use records::Call;

#[derive(Clone, Copy, PartialEq, Eq, Debug)]
pub enum Order {
    Call(Call),
    Settle(Rule),
}
