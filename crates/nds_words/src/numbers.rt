//! Numbers as words.

ghost use Rattle.std.specs.Prelude.{◌≡◌, ◌≢◌, ◌≤◌, ◌↔◌, ℕ, IfSome, IfNone, IsTrue};
ghost use Rattle.std.specs.Fmt.{decimal};
ghost use Rattle.nds_words.specs.Inside.{BeginsNumber};

/// Whether a word begins as numbers do: with a digit, and with 0 only where nothing follows.
fn begins_number(word: &str) -> bool
    ensures { IsTrue result ↔ BeginsNumber word.now }
{
    let bytes = word.as_bytes();
    !bytes.is_empty() && bytes[0] >= b'0' && (bytes[0] != b'0' || bytes.len() <= 1)
}

/// The number from least to most that a word writes in decimal, with no leading zero.
pub(crate) fn number(word: &str, least: u64, most: u64) -> Option<u64>
    ensures some { IfSome result (λ n. (word.now ≡ decimal n) × (least ≤ n) × (n ≤ most)) }
    ensures none { IfNone result ((n : ℕ) → least ≤ n → n ≤ most → word.now ≢ decimal n) }
{
    if !begins_number(word) {
        return None;
    }
    let Ok(n) = word.parse::<u64>() else {
        return None;
    };
    if n < least || most < n {
        return None;
    }
    Some(n)
}
