//! Why a call is refused, and what the refusal tells.
ghost use Rattle.std.specs.Prelude.{◌≡◌};
ghost use Rattle.tables.specs.Equality.{IsExact};
ghost use Rattle.tables.specs.Refusals.{reason_number, part_number, reason_message};

use std::error::Error;
use std::fmt;

/// Why a call is refused, with the number that the reason is known by.
#[derive(Clone, Copy, PartialEq, Eq, Debug)]
pub enum Reason {
    /// Input that cannot be read.
    Malformed = 1,
    /// An id, interval, quarter or place of a line outside its span.
    OutsideSpan = 2,
    /// A field, code, kind or type outside its values.
    OutsideValues = 3,
    /// An area, party or resource that is not entered.
    NotEntered = 4,
    /// An id that is already entered.
    AlreadyEntered = 5,
    /// A second C area, a second party in a W area, a W party where a C party belongs, a tag for a plain
    /// resource.
    Incompatible = 6,
    /// A full table, or no run left.
    Full = 7,
    /// Energy of a dynamic tie, and no interval that weighs.
    NoTieWeight = 8,
    /// An offset, and no demand.
    NoDemand = 9,
    /// A surcharge of an area, and no party that weighs.
    NoSurchargeWeight = 10,
    /// More new lines than there is room for.
    LinesFull = 11,
}

/// The part in which a refusal arises, with its number.
#[derive(Clone, Copy, PartialEq, Eq, Debug)]
pub enum Part {
    Sharing = 1,
    Deemed = 2,
    Charges = 3,
    Statement = 4,
    Reader = 5,
}

/// What a call was about, as the call gave it: its interval or quarter, and its first id. Each is 0 where it
/// has none.
#[derive(Clone, Copy, PartialEq, Eq, Debug)]
pub struct Place {
    pub interval: i64,
    pub id: i64,
}

/// Why a call was refused, in which part, and what the call was about. It prints as
/// `refused 4 part 4 interval 0 id 12`: the numbers of its reason and of its part, and its place.
#[derive(Clone, Copy, PartialEq, Eq, Debug)]
pub struct Refusal {
    pub reason: Reason,
    pub part: Part,
    pub place: Place,
}

impl Reason {
    /// The number that the reason is known by, from 1 to 11.
    pub fn number(self) -> u8
        ensures number { result ≡ reason_number self }
        ensures reasons { IsExact ⟦<Reason as PartialEq>⟧.eq ⟦<Reason as Clone>⟧.is_clone }
        ensures places { IsExact ⟦<Place as PartialEq>⟧.eq ⟦<Place as Clone>⟧.is_clone }
        ensures refusals { IsExact ⟦<Refusal as PartialEq>⟧.eq ⟦<Refusal as Clone>⟧.is_clone }
    {
        self as u8
    }

    /// The reason in words.
    pub fn message(self) -> &'static str
        ensures { result.now ≡ reason_message self }
    {
        match self {
            Reason::Malformed => "input that cannot be read",
            Reason::OutsideSpan => "an id, interval, quarter or line place outside its span",
            Reason::OutsideValues => "a field, code, kind or type outside its values",
            Reason::NotEntered => "an area, party or resource that is not entered",
            Reason::AlreadyEntered => "an id that is already entered",
            Reason::Incompatible => "an area, party or resource that does not fit there",
            Reason::Full => "a full table, or no run left",
            Reason::NoTieWeight => "energy of a tie and no interval to share it by",
            Reason::NoDemand => "an offset and no demand to share it by",
            Reason::NoSurchargeWeight => "a surcharge of an area and no weight to share it by",
            Reason::LinesFull => "more new lines than there is room for",
        }
    }
}

impl Part {
    /// The number that the part is known by, from 1 to 5.
    pub fn number(self) -> u8
        ensures number { result ≡ part_number self }
        ensures parts { IsExact ⟦<Part as PartialEq>⟧.eq ⟦<Part as Clone>⟧.is_clone }
    {
        self as u8
    }
}

/// Prints the reason in words.
impl fmt::Display for Reason {
    ghost use Rattle.std.specs.Prelude.{Some};
    ghost use Rattle.tables.specs.Refusals.{reason_message};

    ghost output = { λ r. Some (reason_message r) };

    fn fmt<W: fmt::Write>(&self, f: &mut fmt::Formatter<W>) -> fmt::Result {
        let text = self.message();
        write!(f, "{text}")
    }
}

/// Prints the place, as `interval 3 id 12`.
impl fmt::Display for Place {
    ghost use Rattle.std.specs.Prelude.{Some};
    ghost use Rattle.tables.specs.Refusals.{place_text};

    ghost output = { λ p. Some (place_text p) };

    fn fmt<W: fmt::Write>(&self, f: &mut fmt::Formatter<W>) -> fmt::Result {
        let Place { interval, id } = *self;
        write!(f, "interval {interval} id {id}")
    }
}

/// Prints the refusal on one line.
impl fmt::Display for Refusal {
    ghost use Rattle.std.specs.Prelude.{Some};
    ghost use Rattle.tables.specs.Refusals.{refusal_text};

    ghost output = { λ r. Some (refusal_text r) };

    fn fmt<W: fmt::Write>(&self, f: &mut fmt::Formatter<W>) -> fmt::Result {
        let number = self.reason.number();
        let part = self.part.number();
        let place = self.place;
        write!(f, "refused {number} part {part} {place}")
    }
}

impl Error for Refusal {}
