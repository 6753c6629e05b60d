//! The calls that enter an area, a party or a resource, each refused by the first reason that fits.
ghost use Rattle.std.specs.Prelude.{◌≡◌, ◌&&◌, not};
ghost use Rattle.tables.specs.Refusals.{IsTested};
ghost use Rattle.tables.specs.declared.refusal.Reason.TheVariants.{Incompatible};
ghost use Rattle.rows.specs.Kinds.{is_ciso};
ghost use Rattle.records.specs.Hours.{any_ciso, any_party_in, ciso_among};
ghost use Rattle.records.specs.Calls.{hour_after};
ghost use Rattle.records.specs.Working.{verdict};
ghost use Rattle.records.specs.declared.call.Call.TheVariants.{EnterArea, EnterParty, EnterResource};

use super::records::Records;
use rows::{Area, AreaKind, Party, Resource, ResourceKind};
use tables::{Reason, Table, flag_of, id_of};

// Whether some area is the CISO area.
fn has_ciso(areas: &[Area]) -> bool
    ensures { result ≡ any_ciso areas.now }
{
    areas.iter().any(|area| area.kind.is_ciso())
}

// Whether some party is in an area.
fn has_party_in(parties: &[Party], area: u16) -> bool
    ensures { result ≡ any_party_in area parties.now }
{
    parties.iter().any(|party| party.area == area)
}

// That the area with an id is the CISO area.
pub(crate) fn check_ciso(areas: &Table<Area>, id: u16) -> Result<(), Reason>
    ensures { IsTested (ciso_among areas.now.rows id) tt Incompatible result }
{
    match areas.row(id) {
        Ok(area) if area.kind.is_ciso() => Ok(()),
        _ => Err(Reason::Incompatible),
    }
}

impl Records {
    pub(super) fn enter_area(&mut self, id: i64, kind: Option<AreaKind>) -> Result<(), Reason>
        ensures answer { result ≡ verdict (EnterArea id kind) self.old }
        ensures records { self.new ≡ hour_after (EnterArea id kind) self.old }
    {
        let id = id_of(id)?;
        let kind = kind.ok_or(Reason::OutsideValues)?;
        self.areas.check_free(id)?;
        if kind.is_ciso() && has_ciso(self.areas.rows()) {
            return Err(Reason::Incompatible);
        }
        self.areas.add(Area::new(id, kind))
    }

    pub(super) fn enter_party(&mut self, id: i64, area: i64) -> Result<(), Reason>
        ensures answer { result ≡ verdict (EnterParty id area) self.old }
        ensures records { self.new ≡ hour_after (EnterParty id area) self.old }
    {
        let id = id_of(id)?;
        let area = id_of(area)?;
        let kind = self.areas.row(area)?.kind;
        self.parties.check_free(id)?;
        self.check_single(area, kind)?;
        self.parties.add(Party::new(id, area))
    }

    pub(super) fn enter_resource(
        &mut self,
        id: i64,
        owner: i64,
        kind: Option<ResourceKind>,
        net: i64,
        exempt: i64,
    ) -> Result<(), Reason>
        ensures answer { result ≡ verdict (EnterResource id owner kind net exempt) self.old }
        ensures records { self.new ≡ hour_after (EnterResource id owner kind net exempt) self.old }
    {
        let id = id_of(id)?;
        let owner = id_of(owner)?;
        let kind = kind.ok_or(Reason::OutsideValues)?;
        let net = flag_of(net)?;
        let exempt = flag_of(exempt)?;
        let home = self.parties.row(owner)?.area;
        self.resources.check_free(id)?;
        check_ciso(&self.areas, home)?;
        self.resources
            .add(Resource::new(id, owner, kind, net, exempt))
    }

    // That no party is in the area, where it is a WEIM area.
    fn check_single(&self, area: u16, kind: AreaKind) -> Result<(), Reason>
        ensures { IsTested (not (not (is_ciso kind) && any_party_in area self.now.parties.rows)) tt Incompatible result }
    {
        if !kind.is_ciso() && has_party_in(self.parties.rows(), area) {
            return Err(Reason::Incompatible);
        }
        Ok(())
    }
}
