//! A resource, with the energy, the tag and the deemed energy of each of its intervals.
ghost use Rattle.std.specs.Prelude.{◌≡◌, length};
ghost use Rattle.tables.specs.Equality.{IsExact};
ghost use Rattle.deemed.specs.Ranges.{hour_length};
ghost use Rattle.deemed.specs.Tags.{no_tag};
ghost use Rattle.rows.specs.Rows.{no_energy, new_resource};
ghost use Rattle.rows.specs.Posts.{MakesUnposted, energy_in_range, energy_record, tag_in_range, tag_record};
ghost use Rattle.rows.specs.Posted.{with_energies};
ghost use Rattle.rows.specs.Records.{OfEnergy, OfTag, set};

use super::dispatch::DispatchType;
use super::figures::{DeemedEnergy, Energy, Price};
use super::kinds::ResourceKind;
use super::posts::{EnergyPost, TagPost};
use super::slot::Interval;
use deemed::{INTERVALS, Tag};
use tables::HasId;

/// The prices and energies of a resource in an interval, under the names of `EnergyPost`.
#[derive(Clone, Copy, PartialEq, Eq, Debug)]
pub struct EnergyRecord {
    pub lmp: Price,
    pub mss: Price,
    pub resprice: Price,
    pub edprice: Price,
    pub iie: Energy,
    pub oa: Energy,
    pub mssiie: Energy,
    pub res: Energy,
    pub above: Energy,
    pub edqty: Energy,
    /// Whether `resprice` is the price of the residual energy.
    pub resflag: bool,
    /// The type of an exceptional dispatch, where there is one.
    pub ed: Option<DispatchType>,
}

/// A resource of a party, with its records of each interval.
#[derive(Drop)]
pub struct Resource {
    pub id: u16,
    pub owner: u16,
    pub kind: ResourceKind,
    /// Whether it belongs to a metered subsystem (MSS) that has elected net settlement.
    pub net: bool,
    /// Whether it is exempt from charge code 6470.
    pub exempt: bool,
    pub energy: [EnergyRecord; INTERVALS],
    pub tags: [Tag; INTERVALS],
    pub deemed: [DeemedEnergy; INTERVALS],
}

impl EnergyRecord {
    // what stands where nothing was posted
    pub(crate) fn none() -> EnergyRecord
        ensures { result ≡ no_energy }
    {
        EnergyRecord {
            lmp: Price::zero(),
            mss: Price::zero(),
            resprice: Price::zero(),
            edprice: Price::zero(),
            iie: Energy::zero(),
            oa: Energy::zero(),
            mssiie: Energy::zero(),
            res: Energy::zero(),
            above: Energy::zero(),
            edqty: Energy::zero(),
            resflag: false,
            ed: None,
        }
    }
}

impl Resource {
    /// A resource as it is entered. Nothing is posted for it yet: its records are those that posts of nothing
    /// make.
    #[tactic(auto, unfolding(crate::specs::Rows::no_energies, crate::specs::Rows::no_tags, crate::specs::Rows::nothing_deemed))]
    pub fn new(id: u16, owner: u16, kind: ResourceKind, net: bool, exempt: bool) -> Resource
        ensures row { result ≡ new_resource id owner kind net exempt }
        ensures energy { MakesUnposted ⟦<EnergyPost as Default>⟧.is_default
            energy_in_range energy_record no_energy }
        ensures tag { MakesUnposted ⟦<TagPost as Default>⟧.is_default tag_in_range tag_record no_tag }
        ensures same_energy { IsExact ⟦<EnergyRecord as PartialEq>⟧.eq ⟦<EnergyRecord as Clone>⟧.is_clone }
        ensures same_tag { IsExact ⟦<Tag as PartialEq>⟧.eq ⟦<Tag as Clone>⟧.is_clone }
    {
        Resource {
            id,
            owner,
            kind,
            net,
            exempt,
            energy: [EnergyRecord::none(); INTERVALS],
            tags: [Tag::none(); INTERVALS],
            deemed: [DeemedEnergy::zero(); INTERVALS],
        }
    }

    /// Puts another record in the place of the interval's.
    pub fn set_energy(&mut self, interval: Interval, energy: EnergyRecord)
        ensures { self.new ≡ set OfEnergy interval.index energy self.old }
    {
        self.energy[interval.index] = energy;
    }

    /// Puts another tag in the place of the interval's.
    pub fn set_tag(&mut self, interval: Interval, tag: Tag)
        ensures { self.new ≡ set OfTag interval.index tag self.old }
    {
        self.tags[interval.index] = tag;
    }

    /// Puts the deemed energies of a tie, one for each interval. A plain resource stays as it is.
    pub fn set_deemed(&mut self, energies: [DeemedEnergy; INTERVALS])
        ensures deemed { self.new ≡ with_energies energies self.old }
        ensures whole { length self.new.deemed ≡ hour_length }
    {
        if self.kind.is_tie() {
            self.deemed = energies;
        }
    }
}

impl HasId for Resource {
    ghost key = { λ r. r.id };

    fn id(&self) -> u16 {
        self.id
    }
}
