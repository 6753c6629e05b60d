// The sharing rules, and the words that name them.
ghost use Rattle.std.specs.Prelude.{◌≡◌};
ghost use Rattle.blocks.specs.Rules.{rule_of};

#[derive(Clone, Copy, PartialEq, Eq, Debug)]
pub enum Rule {
    LargestRemainder,
    Running,
}

impl Rule {
    /// The rule that a word names.
    pub fn named(word: &[u8]) -> Option<Rule>
        ensures { result ≡ rule_of word.now }
    {
        let [letter] = word else {
            return None;
        };
        match char::from(*letter) {
            'L' => Some(Rule::LargestRemainder),
            'R' => Some(Rule::Running),
            _ => None,
        }
    }
}
