//! What is posted for a row, as it is said, and the records that posts make. A post takes any numbers: one
//! outside its range is refused where the post is read.
use super::area::{Election, SufficiencyTest, Transfer};
use super::dispatch::DispatchWord;
use super::figures::{BidCap, Energy, Power, Price, PriceSteps, UnsignedEnergy};
use super::resource::EnergyRecord;
use deemed::{Kilowatts, Tag, TelemetrySteps, Units};
use tables::{Reason, flag_of};

/// The prices and energies of a resource in an interval.
#[derive(Clone, Copy, PartialEq, Eq, Default, Debug)]
pub struct EnergyPost {
    /// The locational marginal price of real-time dispatch.
    pub lmp: PriceSteps,
    /// The price of a metered subsystem (MSS): a utility that serves its own load with its own resources.
    pub mss: PriceSteps,
    /// The bid price that led to the residual imbalance energy.
    pub resprice: PriceSteps,
    /// The price of an exceptional dispatch.
    pub edprice: PriceSteps,
    /// Instructed imbalance energy that has the energy price.
    pub iie: Units,
    /// Of a plain resource the operational adjustment; of a tie the energy that was expected of it.
    pub oa: Units,
    /// Load following energy of a metered subsystem.
    pub mssiie: Units,
    /// Residual imbalance energy: of a resource on its way to or from the dispatch of a neighbouring hour.
    pub res: Units,
    /// Residual imbalance energy above what was forecast of an intermittent resource, at the energy price.
    pub above: Units,
    /// The energy of an exceptional dispatch.
    pub edqty: Units,
    /// 1 where `res` has the price `resprice`, 0 where it has the energy price.
    pub resflag: i64,
    /// The type of an exceptional dispatch.
    pub ed: DispatchWord,
}

/// The tag of a tie in an interval.
#[derive(Clone, Copy, PartialEq, Eq, Default, Debug)]
pub struct TagPost {
    /// The power that the tag schedules.
    pub kw: Kilowatts,
    /// What the meter told of the interval.
    pub telemetry: TelemetrySteps,
    /// 1 where the tag was curtailed, else 0.
    pub curtailed: i64,
}

/// The election of an area: whether it takes part in assistance energy transfers.
#[derive(Clone, Copy, PartialEq, Eq, Default, Debug)]
pub struct ElectionPost {
    /// 1 where the area has opted in, else 0.
    pub opted_in: i64,
    /// The bid cap, at which the surcharge is priced.
    pub cap: PriceSteps,
    /// Upward regulation of the hour, or the like of a W area, which is to its credit.
    pub up: Kilowatts,
    /// What of this is not paid.
    pub nopay: Kilowatts,
}

/// By how much an area failed the upward resource sufficiency tests of a quarter.
#[derive(Clone, Copy, PartialEq, Eq, Default, Debug)]
pub struct TestPost {
    /// What it lacked in the capacity test.
    pub capacity: Kilowatts,
    /// What it lacked in the flexible ramping test.
    pub ramp: Kilowatts,
    /// Upward regulation of the quarter that is not paid.
    pub nopay: Kilowatts,
}

/// The dynamic transfers of an area with other areas in an interval, as tagged, and their base schedules.
#[derive(Clone, Copy, PartialEq, Eq, Default, Debug)]
pub struct TransferPost {
    /// Energy transferred to the area.
    pub to: Units,
    /// What of it was in the base schedules.
    pub base_to: Units,
    /// Energy transferred from the area.
    pub from: Units,
    /// What of it was in the base schedules.
    pub base_from: Units,
}

impl EnergyPost {
    ghost use Rattle.tables.specs.Refusals.{IsTested};
    ghost use Rattle.tables.specs.declared.refusal.Reason.TheVariants.{OutsideValues};
    ghost use Rattle.rows.specs.Figures.{as_price, as_energy};
    ghost use Rattle.rows.specs.Posts.{energies_in_range, energy_in_range, energy_record, prices_in_range};
    ghost use Rattle.rows.specs.Posts.{special_energies_in_range};

    /// The record that the post makes, where all that it says is inside its values; else `OutsideValues`.
    #[tactic(auto, unfolding(crate::specs::Posts::energy_in_range, crate::specs::Posts::energy_record))]
    pub fn read(self) -> Result<EnergyRecord, Reason>
        ensures { IsTested (energy_in_range self) (energy_record self) OutsideValues result }
    {
        let (lmp, mss, resprice, edprice) = self.prices()?;
        let (iie, oa, mssiie, above) = self.energies()?;
        let (res, edqty) = self.special_energies()?;
        Ok(EnergyRecord {
            lmp,
            mss,
            resprice,
            edprice,
            iie,
            oa,
            mssiie,
            res,
            above,
            edqty,
            resflag: flag_of(self.resflag)?,
            ed: self.ed.read()?,
        })
    }

    #[tactic(auto, unfolding(crate::specs::Posts::prices_in_range))]
    fn prices(self) -> Result<(Price, Price, Price, Price), Reason>
        ensures { IsTested (prices_in_range self)
            (as_price self.lmp, as_price self.mss, as_price self.resprice, as_price self.edprice)
            OutsideValues result }
    {
        Ok((
            Price::of(self.lmp)?,
            Price::of(self.mss)?,
            Price::of(self.resprice)?,
            Price::of(self.edprice)?,
        ))
    }

    // what is priced at the resource's energy price
    #[tactic(auto, unfolding(crate::specs::Posts::energies_in_range))]
    fn energies(self) -> Result<(Energy, Energy, Energy, Energy), Reason>
        ensures { IsTested (energies_in_range self)
            (as_energy self.iie, as_energy self.oa, as_energy self.mssiie, as_energy self.above)
            OutsideValues result }
    {
        Ok((
            Energy::of(self.iie)?,
            Energy::of(self.oa)?,
            Energy::of(self.mssiie)?,
            Energy::of(self.above)?,
        ))
    }

    // what is priced at a price of its own
    #[tactic(auto, unfolding(crate::specs::Posts::special_energies_in_range))]
    fn special_energies(self) -> Result<(Energy, Energy), Reason>
        ensures { IsTested (special_energies_in_range self)
            (as_energy self.res, as_energy self.edqty)
            OutsideValues result }
    {
        Ok((Energy::of(self.res)?, Energy::of(self.edqty)?))
    }
}

impl TagPost {
    ghost use Rattle.tables.specs.Refusals.{IsTested};
    ghost use Rattle.tables.specs.declared.refusal.Reason.TheVariants.{OutsideValues};
    ghost use Rattle.rows.specs.Posts.{tag_in_range, tag_record};

    /// The tag that the post makes, where all that it says is inside its values; else `OutsideValues`.
    #[tactic(auto, unfolding(crate::specs::Posts::tag_in_range, crate::specs::Posts::tag_record))]
    pub fn read(self) -> Result<Tag, Reason>
        ensures { IsTested (tag_in_range self) (tag_record self) OutsideValues result }
    {
        let curtailed = flag_of(self.curtailed)?;
        Tag::new(self.kw, self.telemetry, curtailed).ok_or(Reason::OutsideValues)
    }
}

impl ElectionPost {
    ghost use Rattle.tables.specs.Refusals.{IsTested};
    ghost use Rattle.tables.specs.declared.refusal.Reason.TheVariants.{OutsideValues};
    ghost use Rattle.rows.specs.Posts.{election_in_range, election_record};

    /// The record that the post makes, where all that it says is inside its values; else `OutsideValues`.
    #[tactic(auto, unfolding(crate::specs::Posts::election_in_range, crate::specs::Posts::election_record))]
    pub fn read(self) -> Result<Election, Reason>
        ensures { IsTested (election_in_range self) (election_record self) OutsideValues result }
    {
        Ok(Election {
            opted_in: flag_of(self.opted_in)?,
            cap: BidCap::of(self.cap)?,
            up: Power::of(self.up)?,
            nopay: Power::of(self.nopay)?,
        })
    }
}

impl TestPost {
    ghost use Rattle.tables.specs.Refusals.{IsTested};
    ghost use Rattle.tables.specs.declared.refusal.Reason.TheVariants.{OutsideValues};
    ghost use Rattle.rows.specs.Posts.{test_in_range, test_record};

    /// The record that the post makes, where all that it says is inside its values; else `OutsideValues`.
    #[tactic(auto, unfolding(crate::specs::Posts::test_in_range, crate::specs::Posts::test_record))]
    pub fn read(self) -> Result<SufficiencyTest, Reason>
        ensures { IsTested (test_in_range self) (test_record self) OutsideValues result }
    {
        Ok(SufficiencyTest {
            capacity: Power::of(self.capacity)?,
            ramp: Power::of(self.ramp)?,
            nopay: Power::of(self.nopay)?,
        })
    }
}

impl TransferPost {
    ghost use Rattle.tables.specs.Refusals.{IsTested};
    ghost use Rattle.tables.specs.declared.refusal.Reason.TheVariants.{OutsideValues};
    ghost use Rattle.rows.specs.Posts.{transfer_in_range, transfer_record};

    /// The record that the post makes, where all that it says is inside its values; else `OutsideValues`.
    #[tactic(auto, unfolding(crate::specs::Posts::transfer_in_range, crate::specs::Posts::transfer_record))]
    pub fn read(self) -> Result<Transfer, Reason>
        ensures { IsTested (transfer_in_range self) (transfer_record self) OutsideValues result }
    {
        Ok(Transfer {
            to: UnsignedEnergy::of(self.to)?,
            base_to: UnsignedEnergy::of(self.base_to)?,
            from: UnsignedEnergy::of(self.from)?,
            base_from: UnsignedEnergy::of(self.base_from)?,
        })
    }
}
