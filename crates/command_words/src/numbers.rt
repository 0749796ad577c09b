ghost use Rattle.std.specs.Prelude.{ℕ, ◌≡◌, ◌≢◌, ◌≤◌, ◌↔◌, true, false, length, get_or, IsTrue, MatchOption};
ghost use Rattle.std.specs.Fmt.{decimal};
ghost use Rattle.command_words.specs.Beginning.{IsNone};
ghost use Rattle.command_words.specs.Grammar.{IsWithin};

/// Whether a word can be a number: it isn't empty and begins with no plus, and with no zero before other bytes.
fn is_plain(bytes: &[u8]) -> bool
    ensures yes { result ≡ true → (get_or bytes.now 0 0 ≢ 43) × (get_or bytes.now 0 0 ≡ 48 → length bytes.now ≤ 1) }
    ensures no { result ≡ false → IsNone bytes.now }
{
    match bytes {
        [] => false,
        [first, rest @ ..] => *first != b'+' && (*first != b'0' || rest.is_empty()),
    }
}

/// Whether a number is from the least to the most.
fn is_within(n: u64, least: u64, most: u64) -> bool
    ensures { IsTrue result ↔ IsWithin least most n }
{
    least <= n && n <= most
}

/// The number that a word says, from the least to the most, in decimal digits without a zero before others.
pub fn number_of(word: &str, least: u64, most: u64) -> Option<u64>
    ensures { MatchOption result ((n : ℕ) → IsWithin least most n → word.now ≢ decimal n) (λ n. IsWithin least most n × (word.now ≡ decimal n)) }
{
    if !is_plain(word.as_bytes()) {
        return None;
    }
    match word.parse::<u64>() {
        Ok(n) if is_within(n, least, most) => Some(n),
        _ => None,
    }
}
