//! Words of a header line.
ghost use Rattle.std.specs.Prelude.{◌≡◌, List, ℕ, ◌∷◌, ◌++◌, ◌<◌, length, slice_index_or};
ghost use Rattle.std.specs.Prelude.{take, IfSome, IsSomeAnd, MatchOption, IsTrue, ◌↔◌};
ghost use Rattle.wlines.specs.Words.{Lacks, IsWord};

// The place of the first space.
fn space_at(line: &[u8]) -> Option<usize>
    ensures found { IfSome result (λ i. (i < length line.now) × (slice_index_or line.now i 0 ≡ 32)) }
    ensures first { MatchOption result (Lacks 32 line.now) (λ i. Lacks 32 (take i line.now)) }
{
    for (i, b) in line.iter().enumerate() {
        if *b == b' ' {
            return Some(i);
        }
    }
    None
}

/// What stands before the first space, and what stands behind it.
pub fn split_word(line: &[u8]) -> Option<(&[u8], &[u8])>
    ensures found { IfSome result (λ parts. line.now ≡ parts.0.now ++ (32 ∷ parts.1.now)) }
    ensures first { IfSome result (λ parts. Lacks 32 parts.0.now) }
    ensures only { (a b : List ℕ) → Lacks 32 a → line.now ≡ a ++ (32 ∷ b) → IsSomeAnd result (λ parts. (parts.0.now ≡ a)
        × (parts.1.now ≡ b)) }
{
    let Some(place) = space_at(line) else {
        return None;
    };
    Some((&line[..place], &line[place + 1..]))
}

/// Whether a word has a byte at least, and no space, CR or LF.
pub fn is_word(word: &[u8]) -> bool
    ensures { IsTrue result ↔ IsWord word.now }
{
    !word.is_empty()
        && word
            .iter()
            .all(|b| *b != b' ' && *b != b'\r' && *b != b'\n')
}
