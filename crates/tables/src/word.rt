//! Words of an input.
ghost use Rattle.std.specs.Prelude.{◌≡◌, bytes_eq};

/// Whether a word is a name: whether both have the same bytes.
pub fn same_word(word: &[u8], name: &[u8]) -> bool
    ensures { result ≡ bytes_eq name.now word.now }
{
    if word.len() != name.len() {
        return false;
    }
    for i in 0..word.len() {
        if word[i] != name[i] {
            return false;
        }
    }
    true
}
