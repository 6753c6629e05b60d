//! The rows of an hour's records: areas, parties and resources, with what is posted for each.
#![tactic(auto)]

mod area;
mod dispatch;
mod figures;
mod given;
mod kinds;
mod limits;
mod party;
mod posts;
mod resource;
mod slot;

pub use area::{Area, Election, SufficiencyTest, Transfer};
pub use dispatch::{DispatchClass, DispatchType, DispatchWord};
pub use figures::{
    BidCap, Cents, DeemedEnergy, Energy, GivenAmount, Power, Price, PriceSteps, UnsignedEnergy,
};
pub use given::GivenCode;
pub use kinds::{AreaKind, ResourceKind};
pub use limits::{MOST_DEEMED, MOST_ENERGY, MOST_GIVEN, MOST_PRICE};
pub use party::{GivenAmounts, Party};
pub use posts::{ElectionPost, EnergyPost, TagPost, TestPost, TransferPost};
pub use resource::{EnergyRecord, Resource};
pub use slot::{Interval, QUARTERS, Quarter, Slot};
