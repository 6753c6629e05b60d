// The table of worked examples.
ghost use Rattle.examples.specs.Holds.{AllHold};

use super::example::{Example, Rule};
use rows::DispatchType;
use sharing::SharingFault;

// Every one is what the definitions give.
#[tactic(auto, using(crate::proofs::Refusals::refused_by_no_weight), unfolding(sharing::specs::LargestRemainder::largest_remainder, sharing::specs::Running::running, tables::specs::Ranges::in_range, deemed::specs::Tags::as_tag, deemed::specs::Tags::interval_weight, rows::specs::Figures::as_price, rows::specs::Figures::as_cap, rows::specs::Figures::as_energy, rows::specs::Figures::as_unsigned, rows::specs::Figures::as_power, rows::specs::Posts::energy_record, rows::specs::Posts::tag_record, rows::specs::Posts::election_record, rows::specs::Posts::test_record, rows::specs::Posts::transfer_record, formulas::specs::Rounding::to_cents, formulas::specs::Dispatch::exceptional_dispatch, formulas::specs::Imbalance::imbalance_products, formulas::specs::Surcharge::surcharge_pool))]
pub fn examples() -> [Example; 28]
    ensures { AllHold result }
{
    [
        Example::Rounding {
            products: 6_000_000,
            cents: 1,
        },
        Example::Rounding {
            products: 5_999_999,
            cents: 0,
        },
        Example::Rounding {
            products: -6_000_000,
            cents: -1,
        },
        Example::Rounding {
            products: -5_999_999,
            cents: 0,
        },
        Example::Rounding {
            products: 18_000_000,
            cents: 2,
        },
        Example::Imbalance {
            lmp: 5_000_000,
            iie: 12_000,
            cents: -5_000,
        },
        // 100 MWh at $50.00
        Example::Imbalance {
            lmp: 5_000_000,
            iie: 1_200_000,
            cents: -500_000,
        },
        // 150 MWh at $34.99
        Example::Imbalance {
            lmp: 3_499_000,
            iie: 1_800_000,
            cents: -524_850,
        },
        Example::Dispatch {
            kind: DispatchType::Test,
            lmp: 4_000_000,
            edprice: 6_000_000,
            edqty: 12,
            cents: -6,
        },
        Example::Dispatch {
            kind: DispatchType::Test,
            lmp: 4_000_000,
            edprice: 6_000_000,
            edqty: -12,
            cents: 4,
        },
        Example::Dispatch {
            kind: DispatchType::SysEmr,
            lmp: 4_000_000,
            edprice: 6_000_000,
            edqty: 12,
            cents: -4,
        },
        Example::Surcharge {
            failed: 2_400,
            transferred: 2_399,
            credit: 600,
            cap: 100_000_000,
            cents: 14_992,
        },
        Example::Surcharge {
            failed: 2_400,
            transferred: 2_400,
            credit: 600,
            cap: 100_000_000,
            cents: 20_000,
        },
        Example::Surcharge {
            failed: 2_400,
            transferred: 0,
            credit: 600,
            cap: 100_000_000,
            cents: -5_000,
        },
        Example::Shared {
            rule: Rule::LargestRemainder,
            pool: 100,
            weights: &[1, 1, 1],
            shares: &[34, 33, 33],
        },
        Example::Shared {
            rule: Rule::Running,
            pool: 100,
            weights: &[1, 1, 1],
            shares: &[33, 33, 34],
        },
        Example::Shared {
            rule: Rule::LargestRemainder,
            pool: -100,
            weights: &[1, 1, 1],
            shares: &[-34, -33, -33],
        },
        Example::Shared {
            rule: Rule::LargestRemainder,
            pool: 10,
            weights: &[3, 0, 4],
            shares: &[4, 0, 6],
        },
        Example::Shared {
            rule: Rule::Running,
            pool: 10,
            weights: &[3, 0, 4],
            shares: &[4, 0, 6],
        },
        Example::Shared {
            rule: Rule::LargestRemainder,
            pool: 5_000,
            weights: &[1, 2],
            shares: &[1_667, 3_333],
        },
        Example::Shared {
            rule: Rule::Running,
            pool: 5_000,
            weights: &[1, 2],
            shares: &[1_666, 3_334],
        },
        Example::Shared {
            rule: Rule::LargestRemainder,
            pool: 0,
            weights: &[0, 0],
            shares: &[0, 0],
        },
        Example::Shared {
            rule: Rule::Running,
            pool: 0,
            weights: &[0, 0],
            shares: &[0, 0],
        },
        Example::Refused {
            pool: 5,
            weights: &[0, 0],
            fault: SharingFault::NoWeight,
            number: 8,
        },
        Example::Deemed {
            kw: 300,
            telemetry: 200,
            curtailed: false,
            energies: [597, 3],
        },
        Example::Deemed {
            kw: 300,
            telemetry: 200,
            curtailed: true,
            energies: [600, 0],
        },
        Example::Deemed {
            kw: -300,
            telemetry: 200,
            curtailed: false,
            energies: [-597, -3],
        },
        Example::Deemed {
            kw: 300,
            telemetry: 0,
            curtailed: false,
            energies: [300, 300],
        },
    ]
}
