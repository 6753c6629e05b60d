//! What is known of a tie in one interval.
ghost use Rattle.std.specs.Prelude.{◌≤◌, ◌≤ℤ◌, pos, unsigned_abs};
ghost use Rattle.deemed.specs.Ranges.{most_kw, most_telemetry};

use super::quantities::{Kilowatts, TelemetrySteps};

/// The largest kw of a tag, either way.
pub const MOST_KW: u64 = 10_000_000;

/// The largest telemetry; the least is 0.
pub const MOST_TELEMETRY: i64 = 100_000_000;

/// What a tie's tag schedules in an interval, what the meter told, and whether the tag was curtailed.
#[derive(Clone, Copy, PartialEq, Eq, Debug)]
pub struct Tag {
    kw: Kilowatts,
    telemetry: TelemetrySteps,
    curtailed: bool,
    ghost scheduled: { unsigned_abs kw.0 ≤ most_kw },
    ghost metered_from: { pos 0 ≤ℤ telemetry.0 },
    ghost metered_to: { telemetry.0 ≤ℤ pos most_telemetry },
}

impl Tag {
    ghost use Rattle.std.specs.Prelude.{◌≡◌};
    ghost use Rattle.deemed.specs.Tags.{IsTag, IsWeight, flowed, no_tag, weight};

    /// What stands for an interval without a tag: nothing scheduled or metered, and not curtailed. It is a tag and no
    /// `Option`, since `weights` and `pool` take twelve tags.
    pub fn none() -> Tag
        ensures { result ≡ no_tag }
    {
        Tag {
            kw: Kilowatts(0),
            telemetry: TelemetrySteps(0),
            curtailed: false,
        }
    }

    /// A tag with these figures, or nothing where one is outside its range.
    #[tactic(auto, unfolding(crate::specs::Tags::as_tag))]
    pub fn new(kw: Kilowatts, telemetry: TelemetrySteps, curtailed: bool) -> Option<Tag>
        ensures tag { IsTag kw telemetry curtailed result }
        ensures limits { (MOST_KW ≡ most_kw) × (MOST_TELEMETRY ≡ pos most_telemetry) }
    {
        if kw.0.unsigned_abs() > MOST_KW || telemetry.0 < 0 || telemetry.0 > MOST_TELEMETRY {
            return None;
        }
        Some(Tag {
            kw,
            telemetry,
            curtailed,
        })
    }

    /// What the tag schedules for the interval, of either sign.
    pub fn kw(self) -> Kilowatts
        ensures { result ≡ self.kw }
    {
        self.kw
    }

    /// What the meter told of the interval.
    pub fn telemetry(self) -> TelemetrySteps
        ensures { result ≡ self.telemetry }
    {
        self.telemetry
    }

    /// Whether the tag was curtailed.
    pub fn is_curtailed(self) -> bool
        ensures { result ≡ self.curtailed }
    {
        self.curtailed
    }

    /// What the interval weighs where the energy of its hour is shared: nothing where no energy flowed, else its telemetry,
    /// and 1 at least.
    #[tactic(auto, unfolding(crate::specs::Tags::interval_weight))]
    pub fn weight(self) -> u32
        ensures value { result ≡ weight self }
        ensures cases { IsWeight self.kw.0 self.telemetry.0 self.curtailed result }
    {
        let steps = self.telemetry.0.max(1) as u32;
        if self.flowed() { steps } else { 0 }
    }

    // Whether energy flowed on the tag.
    fn flowed(self) -> bool
        ensures { result ≡ flowed self.kw.0 self.curtailed }
    {
        !self.curtailed && self.kw.0 != 0
    }
}
