// The values of a line under the names of its block, and what they order.
ghost use Rattle.std.specs.Prelude.{◌≡◌, ◌<◌, ℕ, List, length, replicate, Some, None, pos};
ghost use Rattle.std.specs.declared.option.Option.{Option};
ghost use Rattle.blocks.specs.declared.block.Block.TheVariants.{Energy, Tag, Election, Test, Transfer};
ghost use Rattle.blocks.specs.declared.order.Order.TheVariants.{Call as CallOf};
ghost use Rattle.blocks.specs.Names.{block_names};
ghost use Rattle.blocks.specs.Orders.{order_of};
ghost use Rattle.blocks.specs.Working.{Held, Put, most_names};

use super::block::{Block, MOST_NAMES};
use super::order::Order;
use super::rule::Rule;
use deemed::{Kilowatts, TelemetrySteps, Units};
use records::Call;
use rows::{
    AreaKind, Cents, DispatchWord, ElectionPost, EnergyPost, PriceSteps, ResourceKind, TagPost,
    TestPost, TransferPost,
};
use words::{is_word, number};

// The numbers stand at the places of their names; one that is left out is 0.
#[derive(Clone, Copy, Drop)]
pub(crate) struct Values<'a> {
    pub(crate) numbers: [i64; MOST_NAMES],
    pub(crate) word: Option<&'a [u8]>,
}

impl<'a> Values<'a> {
    // Every value left out.
    pub(crate) fn none() -> Values<'a>
        ensures numbers { result.numbers ≡ replicate most_names (pos 0) }
        ensures word { result.word ≡ None }
    {
        Values {
            numbers: [0; MOST_NAMES],
            word: None,
        }
    }

    // Takes the value that stands in the column of a name, by its place, if it may stand there.
    #[tactic(auto, using(crate::proofs::Columns::words_stand))]
    pub(crate) fn put(&mut self, block: Block, place: usize, value: &'a [u8]) -> Option<()>
        requires { place < length (block_names block) }
        ensures { Put block place value.now self.old self.new result }
    {
        if block.word_place() == Some(place) {
            if !is_word(value) {
                return None;
            }
            self.word = Some(value);
        } else {
            self.numbers[place] = number(value)?;
        }
        Some(())
    }

    fn energy(&self) -> Call
        ensures { (value : List ℕ → Option (List ℕ)) → Held Energy value self.now → Some (CallOf result) ≡ order_of Energy value }
    {
        let [
            id,
            interval,
            lmp,
            mss,
            resprice,
            edprice,
            iie,
            oa,
            mssiie,
            res,
            above,
            edqty,
            resflag,
            _,
        ] = self.numbers;
        let post = EnergyPost {
            lmp: PriceSteps(lmp),
            mss: PriceSteps(mss),
            resprice: PriceSteps(resprice),
            edprice: PriceSteps(edprice),
            iie: Units(iie),
            oa: Units(oa),
            mssiie: Units(mssiie),
            res: Units(res),
            above: Units(above),
            edqty: Units(edqty),
            resflag,
            ed: DispatchWord::of(self.word),
        };
        Call::PostEnergy { id, interval, post }
    }

    fn tag(&self) -> Call
        ensures { (value : List ℕ → Option (List ℕ)) → Held Tag value self.now → Some (CallOf result) ≡ order_of Tag value }
    {
        let [id, interval, kw, telemetry, curtailed, ..] = self.numbers;
        let post = TagPost {
            kw: Kilowatts(kw),
            telemetry: TelemetrySteps(telemetry),
            curtailed,
        };
        Call::PostTag { id, interval, post }
    }

    fn election(&self) -> Call
        ensures { (value : List ℕ → Option (List ℕ)) → Held Election value self.now → Some (CallOf result) ≡ order_of Election value }
    {
        let [id, opted_in, cap, up, nopay, ..] = self.numbers;
        let post = ElectionPost {
            opted_in,
            cap: PriceSteps(cap),
            up: Kilowatts(up),
            nopay: Kilowatts(nopay),
        };
        Call::PostElection { id, post }
    }

    fn test(&self) -> Call
        ensures { (value : List ℕ → Option (List ℕ)) → Held Test value self.now → Some (CallOf result) ≡ order_of Test value }
    {
        let [id, quarter, capacity, ramp, nopay, ..] = self.numbers;
        let post = TestPost {
            capacity: Kilowatts(capacity),
            ramp: Kilowatts(ramp),
            nopay: Kilowatts(nopay),
        };
        Call::PostTest { id, quarter, post }
    }

    fn transfer(&self) -> Call
        ensures { (value : List ℕ → Option (List ℕ)) → Held Transfer value self.now → Some (CallOf result) ≡ order_of Transfer value }
    {
        let [id, interval, to, base_to, from, base_from, ..] = self.numbers;
        let post = TransferPost {
            to: Units(to),
            base_to: Units(base_to),
            from: Units(from),
            base_from: Units(base_from),
        };
        Call::PostTransfer { id, interval, post }
    }

    // What they order in a line of a block; nothing where a settle names no rule.
    pub(crate) fn order(&self, block: Block) -> Option<Order>
        ensures { (value : List ℕ → Option (List ℕ)) → Held block value self.now → result ≡ order_of block value }
    {
        let [id, second, third, fourth, fifth, ..] = self.numbers;
        let call = match block {
            Block::Area => Call::EnterArea {
                id,
                kind: self.word.and_then(AreaKind::named),
            },
            Block::Party => Call::EnterParty { id, area: second },
            Block::Resource => Call::EnterResource {
                id,
                owner: second,
                kind: self.word.and_then(ResourceKind::named),
                net: fourth,
                exempt: fifth,
            },
            Block::Energy => self.energy(),
            Block::Tag => self.tag(),
            Block::Election => self.election(),
            Block::Test => self.test(),
            Block::Transfer => self.transfer(),
            Block::Demand => Call::PostDemand {
                id,
                interval: second,
                units: Units(third),
            },
            Block::Given => Call::PostGiven {
                id,
                interval: second,
                code: third,
                cents: Cents(fourth),
            },
            Block::Settle => return self.word.and_then(Rule::named).map(Order::Settle),
        };
        Some(Order::Call(call))
    }
}
