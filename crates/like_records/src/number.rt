// Whole numbers written in decimal.
ghost use Rattle.std.specs.Prelude.{◌≡◌, ◌≤◌, MatchOption};
ghost use Rattle.like_records.specs.Decimal.{IsDecimal, decimal_value};

/// The number that a text of 1 to `digits` ASCII digits writes, if it is at most `limit`. Zeros may lead; a sign or a
/// space is refused.
pub fn decimal(text: &[u8], digits: usize, limit: u64) -> Option<u64>
    requires { digits ≤ 19 }
    ensures { MatchOption result
        (¬ IsDecimal digits limit text.now)
        (λ n. IsDecimal digits limit text.now × (n ≡ decimal_value text.now)) }
{
    if text.is_empty() || text.len() > digits {
        return None;
    }
    let mut value = 0u64;
    for byte in text {
        if !byte.is_ascii_digit() {
            return None;
        }
        value = 10 * value + u64::from(*byte - b'0');
    }
    if value <= limit { Some(value) } else { None }
}
