ghost use Rattle.std.specs.Prelude.{◌≡◌, ℤ, pos};
ghost use Rattle.py_meaning.specs.Numbers.{floor, modulo};
ghost use Rattle.py_laws.specs.Divided.{IsQuotient};

/// What `//` and `%` give, whatever the signs: the number is the quotient times the divisor and then the remainder, which is 0
/// or lies between 0 and the divisor. No other two numbers do so.
pub fn floor_division_is_by_quotient_and_remainder()
    ensures divides { (a b : ℤ) → (b ≡ pos 0 → ⊥) → IsQuotient a b (floor a b) (modulo a b) }
    ensures alone { (a b q r : ℤ) → IsQuotient a b q r → (q ≡ floor a b) × (r ≡ modulo a b) }
{}
