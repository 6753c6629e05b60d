// The entering and posting calls by their names, each one line over `take`.
ghost use Rattle.std.specs.Prelude.{◌≡◌, IfOk};
ghost use Rattle.rows.specs.Kinds.{area_kind, resource_kind};
ghost use Rattle.records.specs.Calls.{answer_to};
ghost use Rattle.records.specs.Standing.{Stands};
ghost use Rattle.statement.specs.Statements.{taken};
ghost use Rattle.records.specs.declared.call.Call.TheVariants.{EnterArea, EnterParty, EnterResource, PostEnergy, PostTag, PostElection, PostTest, PostTransfer, PostDemand, PostGiven};

use super::book::Book;
use deemed::Units;
use records::Call;
use rows::{
    AreaKind, Cents, ElectionPost, EnergyPost, ResourceKind, TagPost, TestPost, TransferPost,
};
use tables::Refusal;

impl Book {
    /// Enters an area of kind `C` or `W`.
    pub fn enter_area(&mut self, id: i64, kind: &[u8]) -> Result<(), Refusal>
        ensures answer { result ≡ answer_to (EnterArea id (area_kind kind.now)) self.old.records }
        ensures statement { self.new ≡ taken (EnterArea id (area_kind kind.now)) self.old }
        ensures stands { IfOk result (λ _. Stands (EnterArea id (area_kind kind.now)) self.new.records) }
    {
        self.take(Call::EnterArea {
            id,
            kind: AreaKind::named(kind),
        })
    }

    /// Enters a party of an area.
    pub fn enter_party(&mut self, id: i64, area: i64) -> Result<(), Refusal>
        ensures answer { result ≡ answer_to (EnterParty id area) self.old.records }
        ensures statement { self.new ≡ taken (EnterParty id area) self.old }
        ensures stands { IfOk result (λ _. Stands (EnterParty id area) self.new.records) }
    {
        self.take(Call::EnterParty { id, area })
    }

    /// Enters a resource of kind `P`, `S` or `D`.
    pub fn enter_resource(
        &mut self,
        id: i64,
        owner: i64,
        kind: &[u8],
        net: i64,
        exempt: i64,
    ) -> Result<(), Refusal>
        ensures answer { result ≡ answer_to (EnterResource id owner (resource_kind kind.now) net exempt) self.old.records }
        ensures statement { self.new ≡ taken (EnterResource id owner (resource_kind kind.now) net exempt) self.old }
        ensures stands { IfOk result (λ _. Stands (EnterResource id owner (resource_kind kind.now) net exempt) self.new.records) }
    {
        self.take(Call::EnterResource {
            id,
            owner,
            kind: ResourceKind::named(kind),
            net,
            exempt,
        })
    }

    /// Posts the prices and energies of a resource in an interval.
    pub fn post_energy(&mut self, id: i64, interval: i64, post: EnergyPost) -> Result<(), Refusal>
        ensures answer { result ≡ answer_to (PostEnergy id interval post) self.old.records }
        ensures statement { self.new ≡ taken (PostEnergy id interval post) self.old }
        ensures stands { IfOk result (λ _. Stands (PostEnergy id interval post) self.new.records) }
    {
        self.take(Call::PostEnergy { id, interval, post })
    }

    /// Posts the tag of a tie in an interval.
    pub fn post_tag(&mut self, id: i64, interval: i64, post: TagPost) -> Result<(), Refusal>
        ensures answer { result ≡ answer_to (PostTag id interval post) self.old.records }
        ensures statement { self.new ≡ taken (PostTag id interval post) self.old }
        ensures stands { IfOk result (λ _. Stands (PostTag id interval post) self.new.records) }
    {
        self.take(Call::PostTag { id, interval, post })
    }

    /// Posts the election of an area.
    pub fn post_election(&mut self, id: i64, post: ElectionPost) -> Result<(), Refusal>
        ensures answer { result ≡ answer_to (PostElection id post) self.old.records }
        ensures statement { self.new ≡ taken (PostElection id post) self.old }
        ensures stands { IfOk result (λ _. Stands (PostElection id post) self.new.records) }
    {
        self.take(Call::PostElection { id, post })
    }

    /// Posts the sufficiency test of an area in a quarter.
    pub fn post_test(&mut self, id: i64, quarter: i64, post: TestPost) -> Result<(), Refusal>
        ensures answer { result ≡ answer_to (PostTest id quarter post) self.old.records }
        ensures statement { self.new ≡ taken (PostTest id quarter post) self.old }
        ensures stands { IfOk result (λ _. Stands (PostTest id quarter post) self.new.records) }
    {
        self.take(Call::PostTest { id, quarter, post })
    }

    /// Posts the transfers of an area in an interval.
    pub fn post_transfer(
        &mut self,
        id: i64,
        interval: i64,
        post: TransferPost,
    ) -> Result<(), Refusal>
        ensures answer { result ≡ answer_to (PostTransfer id interval post) self.old.records }
        ensures statement { self.new ≡ taken (PostTransfer id interval post) self.old }
        ensures stands { IfOk result (λ _. Stands (PostTransfer id interval post) self.new.records) }
    {
        self.take(Call::PostTransfer { id, interval, post })
    }

    /// Posts the demand of a party of the CISO area in an interval.
    pub fn post_demand(&mut self, id: i64, interval: i64, units: Units) -> Result<(), Refusal>
        ensures answer { result ≡ answer_to (PostDemand id interval units) self.old.records }
        ensures statement { self.new ≡ taken (PostDemand id interval units) self.old }
        ensures stands { IfOk result (λ _. Stands (PostDemand id interval units) self.new.records) }
    {
        self.take(Call::PostDemand {
            id,
            interval,
            units,
        })
    }

    /// Posts the money that is given for a party of the CISO area in an interval, under code 6470, 6474 or 6475.
    pub fn post_given(
        &mut self,
        id: i64,
        interval: i64,
        code: i64,
        cents: Cents,
    ) -> Result<(), Refusal>
        ensures answer { result ≡ answer_to (PostGiven id interval code cents) self.old.records }
        ensures statement { self.new ≡ taken (PostGiven id interval code cents) self.old }
        ensures stands { IfOk result (λ _. Stands (PostGiven id interval code cents) self.new.records) }
    {
        self.take(Call::PostGiven {
            id,
            interval,
            code,
            cents,
        })
    }
}
