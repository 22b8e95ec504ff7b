//! Words that spell a number.
ghost use Rattle.std.specs.Prelude.{◌≡◌, ℕ, ◌^◌, ◌<◌, Some, IfSome, decimal, IsTrue, ◌↔◌};
ghost use Rattle.wvalues.specs.Number.{IsPlain, SpellsNumber};

/// Whether a word begins with no sign, and with a zero only if that is all of it.
fn is_plain(word: &[u8]) -> bool
    ensures { IsTrue result ↔ IsPlain word.now }
{
    !word.is_empty() && word[0] != b'+' && (word[0] != b'0' || word.len() == 1)
}

/// The number that a word spells in decimal digits without leading zeros, where it has 32 bits at most.
pub fn number_word(word: &[u8]) -> Option<u32>
    ensures found { IfSome result (λ n. SpellsNumber word.now n) }
    ensures only { (n : ℕ) → n < 2 ^ 32 → word.now ≡ decimal n → result ≡ Some n }
{
    if !is_plain(word) {
        return None;
    }
    match std::str::from_utf8(word) {
        Ok(text) => match text.parse::<u32>() {
            Ok(number) => Some(number),
            Err(_) => None,
        },
        Err(_) => None,
    }
}
