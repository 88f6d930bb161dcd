//! Numbers that stand still at 2^64 - 1.

ghost use Rattle.std.specs.Prelude.{◌≡◌, ◌*◌, ℕ};
ghost use Rattle.fir_type_table.specs.working.Saturated.{saturated};

/// So many times a number, where that is at most 2^64 - 1.
pub fn times(count: u128, number: u64) -> u64
    ensures { (n : ℕ) → number ≡ saturated n → result ≡ saturated (count * n) }
{
    let product = count.saturating_mul(u128::from(number));
    u64::try_from(product).unwrap_or(u64::MAX)
}
