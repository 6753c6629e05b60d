//! A static tie's hour.
ghost use Rattle.deemed.specs.Deemed.{IsStaticTie};

use super::hour::INTERVALS;
use super::quantities::Units;
use super::tag::Tag;

/// The deemed energies of a static tie's hour: in each interval what its tag schedules.
pub fn static_units(tags: [Tag; INTERVALS]) -> [Units; INTERVALS]
    ensures { IsStaticTie tags result }
{
    tags.map(|tag| tag.kw().over_an_interval())
}
