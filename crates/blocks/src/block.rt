//! The blocks of an input, and the names that their first lines may have.
ghost use Rattle.std.specs.Prelude.{◌≡◌, Some};
ghost use Rattle.blocks.specs.Names.{block_names, block_of, blocks, name_at, names_text, place_among, word_name};

use tables::same_word;
use words::Words;

// The most names that a block has.
pub(crate) const MOST_NAMES: usize = 14;

#[derive(Clone, Copy, PartialEq, Eq, Debug)]
pub enum Block {
    Area,
    Party,
    Resource,
    Energy,
    Tag,
    Election,
    Test,
    Transfer,
    Demand,
    Given,
    Settle,
}

impl Block {
    /// All blocks.
    pub const ALL: [Block; 11] = [
        Block::Area,
        Block::Party,
        Block::Resource,
        Block::Energy,
        Block::Tag,
        Block::Election,
        Block::Test,
        Block::Transfer,
        Block::Demand,
        Block::Given,
        Block::Settle,
    ];

    /// The names of its columns, its own first: what the block is known by, and no other.
    pub fn names(self) -> &'static [u8]
        ensures names { result.now ≡ names_text self }
        ensures own { block_of (name_at self 0) ≡ Some self }
    {
        match self {
            Block::Area => b"area kind",
            Block::Party => b"party area",
            Block::Resource => b"resource owner kind net exempt",
            Block::Energy =>
                b"energy interval lmp mss resprice edprice iie oa mssiie res above edqty resflag ed",
            Block::Tag => b"tag interval kw telemetry curtailed",
            Block::Election => b"election in cap up nopay",
            Block::Test => b"test quarter capacity ramp nopay",
            Block::Transfer => b"transfer interval to baseto from basefrom",
            Block::Demand => b"demand interval units",
            Block::Given => b"given interval code cents",
            Block::Settle => b"settle",
        }
    }

    // The place of the name under which it has words, if it has any.
    pub(crate) fn word_place(self) -> Option<usize>
        ensures { result ≡ place_among (block_names self) (word_name self) }
    {
        match self {
            Block::Settle => Some(0),
            Block::Area => Some(1),
            Block::Resource => Some(2),
            Block::Energy => Some(13),
            _ => None,
        }
    }

    fn name(self) -> &'static [u8]
        ensures { result.now ≡ name_at self 0 }
    {
        Words::of(self.names()).next().unwrap_or(b"")
    }

    /// The block that a word names.
    pub fn named(word: &[u8]) -> Option<Block>
        ensures block { result ≡ block_of word.now }
        ensures all { Block.ALL ≡ blocks }
    {
        Block::ALL
            .iter()
            .copied()
            .find(|block| same_word(word, block.name()))
    }

    /// The place of a name among its own.
    #[tactic(auto, using(crate::proofs::Columns::few_names))]
    pub fn place(self, name: &[u8]) -> Option<usize>
        ensures { result ≡ place_among (block_names self) name.now }
    {
        Words::of(self.names()).position(|n| same_word(name, n))
    }
}
