//! The kinds of areas and resources, and the words that name them.
ghost use Rattle.std.specs.Prelude.{◌≡◌};
ghost use Rattle.rows.specs.Kinds.{area_kind, is_ciso, is_tie, resource_kind};

/// The kind of an area.
#[derive(Clone, Copy, PartialEq, Eq, Debug)]
pub enum AreaKind {
    /// The area of the market operator itself, the California ISO (CISO): `C`.
    Ciso,
    /// An area of the Western Energy Imbalance Market (WEIM): `W`.
    Weim,
}

/// The kind of a resource.
#[derive(Clone, Copy, PartialEq, Eq, Debug)]
pub enum ResourceKind {
    /// No tie: `P`.
    Plain,
    /// A tie to another area, whose energy is scheduled: `S`.
    StaticTie,
    /// A tie to another area, whose energy is shared over the hour by telemetry: `D`.
    DynamicTie,
}

impl AreaKind {
    /// The kind that a word names, if it names one.
    pub fn named(word: &[u8]) -> Option<AreaKind>
        ensures { result ≡ area_kind word.now }
    {
        let [letter] = word else {
            return None;
        };
        match char::from(*letter) {
            'C' => Some(AreaKind::Ciso),
            'W' => Some(AreaKind::Weim),
            _ => None,
        }
    }

    /// Whether it is the market operator's own area.
    pub fn is_ciso(self) -> bool
        ensures { result ≡ is_ciso self }
    {
        self == AreaKind::Ciso
    }
}

impl ResourceKind {
    /// The kind that a word names, if it names one.
    pub fn named(word: &[u8]) -> Option<ResourceKind>
        ensures { result ≡ resource_kind word.now }
    {
        let [letter] = word else {
            return None;
        };
        match char::from(*letter) {
            'P' => Some(ResourceKind::Plain),
            'S' => Some(ResourceKind::StaticTie),
            'D' => Some(ResourceKind::DynamicTie),
            _ => None,
        }
    }

    /// Whether it is a static or a dynamic tie.
    pub fn is_tie(self) -> bool
        ensures { result ≡ is_tie self }
    {
        self != ResourceKind::Plain
    }
}
