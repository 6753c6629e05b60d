// The lines of a run: what each account is billed, so that its lines come to its new amount.
ghost use Rattle.std.specs.Prelude.{◌≡◌, ◌+◌, ◌<◌, ◌≤◌, [], ◌∷◌, ◌++◌, map, filter, length, ◌-ℤ◌, unsigned_abs};
ghost use Rattle.deemed.specs.Ranges.{hour_length};
ghost use Rattle.records.specs.Ranges.{most_parties};
ghost use Rattle.records.specs.Hours.{party_id};
ghost use Rattle.charges.specs.Ranges.{most_amount};
ghost use Rattle.statement.specs.Ranges.{most_added};
ghost use Rattle.statement.specs.Lines.{is_billed, party_changes, interval_changes, changes};
ghost use Rattle.statement.specs.Small.{at, Small, AllSmall};

use super::line::Line;
use arrayvec::ArrayVec;
use charges::{ChargeCode, IntervalAmounts};
use deemed::INTERVALS;
use records::MOST_PARTIES;
use rows::{Cents, Interval, Party, Slot};

// In each interval one under each code for each party, and one for account 0.
pub(crate) const MOST_ADDED: usize = INTERVALS * (MOST_PARTIES * ChargeCode::ALL.len() + 1);

// What a party is known by: its place in the order entered, and its id.
#[derive(Clone, Copy)]
struct PartyAt {
    place: usize,
    id: u16,
}

// A new amount less what has been billed.
fn change(amount: Cents, billed: Cents) -> Cents
    requires amount { unsigned_abs amount.0 ≤ most_amount }
    requires billed { unsigned_abs billed.0 ≤ most_amount }
    ensures { result.0 ≡ amount.0 -ℤ billed.0 }
{
    amount - billed
}

// Adds a line, where it bills anything.
fn add(lines: &mut ArrayVec<Line, MOST_ADDED>, line: Line)
    requires { length lines.old.items < most_added }
    ensures lines { lines.new.items ≡ lines.old.items ++ filter is_billed (line ∷ []) }
    ensures few { length lines.new.items ≤ length lines.old.items + 1 }
{
    if line.cents.0 != 0 {
        lines.push(line);
    }
}

// The lines of a party in an interval.
fn add_party(
    lines: &mut ArrayVec<Line, MOST_ADDED>,
    run: u16,
    interval: Interval,
    party: PartyAt,
    amounts: &IntervalAmounts,
    totals: &IntervalAmounts,
)
    requires room { length lines.old.items + 5 ≤ most_added }
    requires place { party.place < most_parties }
    requires amounts { Small amounts.now }
    requires totals { Small totals.now }
    ensures lines { lines.new.items ≡ lines.old.items ++ filter is_billed (party_changes run interval.index amounts.now totals.now party.place party.id) }
    ensures few { length lines.new.items ≤ length lines.old.items + 5 }
{
    for code in ChargeCode::ALL {
        let amount = amounts.column(code)[party.place];
        let billed = totals.column(code)[party.place];
        let line = Line {
            run,
            interval: interval.index as u8 + 1,
            account: party.id,
            code,
            cents: change(amount, billed),
        };
        add(lines, line);
    }
}

// The lines of an interval.
fn add_interval(
    lines: &mut ArrayVec<Line, MOST_ADDED>,
    run: u16,
    interval: Interval,
    parties: &[Party],
    amounts: &IntervalAmounts,
    totals: &IntervalAmounts,
)
    requires room { length lines.old.items + 321 ≤ most_added }
    requires few { length parties.now ≤ most_parties }
    requires amounts { Small amounts.now }
    requires totals { Small totals.now }
    ensures lines { lines.new.items ≡ lines.old.items ++ filter is_billed (interval_changes run interval.index amounts.now totals.now (map party_id parties.now)) }
    ensures few { length lines.new.items ≤ length lines.old.items + 321 }
{
    for (place, party) in parties.iter().enumerate() {
        let party = PartyAt {
            place,
            id: party.id,
        };
        add_party(lines, run, interval, party, amounts, totals);
    }
    let line = Line {
        run,
        interval: interval.index as u8 + 1,
        account: 0,
        code: ChargeCode::Cc6476,
        cents: change(amounts.balance, totals.balance),
    };
    add(lines, line);
}

// The lines of a run.
pub(crate) fn changes(
    run: u16,
    parties: &[Party],
    amounts: &[IntervalAmounts; INTERVALS],
    totals: &[IntervalAmounts; INTERVALS],
) -> ArrayVec<Line, MOST_ADDED>
    requires few { length parties.now ≤ most_parties }
    requires amounts { AllSmall amounts.now }
    requires totals { AllSmall totals.now }
    ensures { result.items ≡ filter is_billed (changes run (at amounts.now) (at totals.now) (map party_id parties.now) hour_length) }
{
    let mut lines = ArrayVec::new();
    for index in 0..INTERVALS {
        add_interval(
            &mut lines,
            run,
            Slot { index },
            parties,
            &amounts[index],
            &totals[index],
        );
    }
    lines
}
