//! The types of exceptional dispatch, and the words that name them.
ghost use Rattle.std.specs.Prelude.{◌≡◌, Some, option_map};
ghost use Rattle.tables.specs.Refusals.{IsTested};
ghost use Rattle.tables.specs.declared.refusal.Reason.TheVariants.{OutsideValues};
ghost use Rattle.rows.specs.Dispatch.{dispatch_class, dispatch_type, dispatch_types, dispatch_word};
ghost use Rattle.rows.specs.Dispatch.{as_dispatch, is_known_type, type_word};

use tables::{Reason, same_word};

/// The type of an exceptional dispatch: an order of the market operator outside the market's own dispatch.
#[derive(Clone, Copy, PartialEq, Eq, Debug)]
pub enum DispatchType {
    // of the first class
    SysEmr,
    SysEmr1,
    Temr,
    TModel,
    TModel1,
    TModel2,
    TModel3,
    TModel4,
    TModel5,
    TModel6,
    TModel7,
    TModel8,
    TModel9,
    TorEtc,
    TorEtc1,
    RmrR,
    RmrS,
    RmrT,
    Slic,
    Other,
    // of the second class
    NonTMod,
    AsTest,
    Test,
}

/// The class of a type. Which price an exceptional dispatch has goes by it.
#[derive(Clone, Copy, PartialEq, Eq, Debug)]
pub enum DispatchClass {
    First,
    Second,
}

/// What a post says of the dispatch type.
#[derive(Clone, Copy, PartialEq, Eq, Default, Debug)]
pub enum DispatchWord {
    #[default]
    Absent,
    Named(DispatchType),
    /// A word that names no type.
    Unknown,
}

impl DispatchType {
    /// All types.
    pub const ALL: [DispatchType; 23] = [
        DispatchType::SysEmr,
        DispatchType::SysEmr1,
        DispatchType::Temr,
        DispatchType::TModel,
        DispatchType::TModel1,
        DispatchType::TModel2,
        DispatchType::TModel3,
        DispatchType::TModel4,
        DispatchType::TModel5,
        DispatchType::TModel6,
        DispatchType::TModel7,
        DispatchType::TModel8,
        DispatchType::TModel9,
        DispatchType::TorEtc,
        DispatchType::TorEtc1,
        DispatchType::RmrR,
        DispatchType::RmrS,
        DispatchType::RmrT,
        DispatchType::Slic,
        DispatchType::Other,
        DispatchType::NonTMod,
        DispatchType::AsTest,
        DispatchType::Test,
    ];

    /// The word that names the type, and no other.
    pub fn name(self) -> &'static [u8]
        ensures word { result.now ≡ type_word self }
        ensures own { dispatch_type result.now ≡ Some self }
    {
        match self {
            DispatchType::SysEmr => b"SYSEMR",
            DispatchType::SysEmr1 => b"SYSEMR1",
            DispatchType::Temr => b"TEMR",
            DispatchType::TModel => b"TMODEL",
            DispatchType::TModel1 => b"TMODEL1",
            DispatchType::TModel2 => b"TMODEL2",
            DispatchType::TModel3 => b"TMODEL3",
            DispatchType::TModel4 => b"TMODEL4",
            DispatchType::TModel5 => b"TMODEL5",
            DispatchType::TModel6 => b"TMODEL6",
            DispatchType::TModel7 => b"TMODEL7",
            DispatchType::TModel8 => b"TMODEL8",
            DispatchType::TModel9 => b"TMODEL9",
            DispatchType::TorEtc => b"TORETC",
            DispatchType::TorEtc1 => b"TORETC1",
            DispatchType::RmrR => b"RMRR",
            DispatchType::RmrS => b"RMRS",
            DispatchType::RmrT => b"RMRT",
            DispatchType::Slic => b"SLIC",
            DispatchType::Other => b"OTHER",
            DispatchType::NonTMod => b"NONTMOD",
            DispatchType::AsTest => b"ASTEST",
            DispatchType::Test => b"TEST",
        }
    }

    /// The class of the type.
    pub fn class(self) -> DispatchClass
        ensures { result ≡ dispatch_class self }
    {
        match self {
            DispatchType::NonTMod | DispatchType::AsTest | DispatchType::Test =>
                DispatchClass::Second,
            _ => DispatchClass::First,
        }
    }

    /// The type that a word names, if it names one.
    pub fn named(word: &[u8]) -> Option<DispatchType>
        ensures kind { result ≡ dispatch_type word.now }
        ensures all { DispatchType.ALL ≡ dispatch_types }
    {
        DispatchType::ALL
            .iter()
            .copied()
            .find(|kind| same_word(word, kind.name()))
    }
}

impl DispatchWord {
    /// What a word says, where there is one.
    pub fn of(word: Option<&[u8]>) -> DispatchWord
        ensures { result ≡ dispatch_word (option_map (λ w. w.now) word.entry) }
    {
        let Some(word) = word else {
            return DispatchWord::Absent;
        };
        match DispatchType::named(word) {
            Some(kind) => DispatchWord::Named(kind),
            None => DispatchWord::Unknown,
        }
    }

    /// The type that it names, or none where it is absent; `OutsideValues` for a word that names no type.
    pub fn read(self) -> Result<Option<DispatchType>, Reason>
        ensures { IsTested (is_known_type self) (as_dispatch self) OutsideValues result }
    {
        match self {
            DispatchWord::Absent => Ok(None),
            DispatchWord::Named(kind) => Ok(Some(kind)),
            DispatchWord::Unknown => Err(Reason::OutsideValues),
        }
    }
}
