// The numbers that words write.
ghost use Rattle.std.specs.Prelude.{◌≡◌};
ghost use Rattle.words.specs.Numbers.{NumbersReadBack, most_digits, natural_of, number_of};
ghost use Rattle.std.specs.Option.{option_map};
ghost use Rattle.std.specs.Prelude.{pos};

/// The most digits of a number.
pub const MOST_DIGITS: usize = 10;

// The number that one to ten digits write.
fn natural(text: &[u8]) -> Option<i64>
    ensures { result ≡ option_map pos (natural_of text.now) }
{
    if text.is_empty() || text.len() > MOST_DIGITS {
        return None;
    }
    let mut number = 0;
    let mut rest = text;
    while let [digit @ b'0'..=b'9', digits @ ..] = rest {
        number = number * 10 + i64::from(digit - b'0');
        rest = digits;
    }
    rest.is_empty().then_some(number)
}

/// The number that a text writes: one to ten digits, after a minus or not.
pub fn number(text: &[u8]) -> Option<i64>
    ensures value { result ≡ number_of text.now }
    ensures reads_back { NumbersReadBack }
    ensures limit { MOST_DIGITS ≡ most_digits }
{
    match text {
        [b'-', digits @ ..] => natural(digits).map(|n| -n),
        _ => natural(text),
    }
}
