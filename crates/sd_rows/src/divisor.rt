ghost use Rattle.std.specs.Prelude.{◌≡◌, ◌<◌, ◌≤◌, ◌/◌, ◌∷◌, [], true, pos, int_div};
ghost use Rattle.std.specs.Int.{IsGcd};
ghost use Rattle.sd_rows.specs.Rows.{IsProper, are_small};
ghost use Rattle.sd_rows.specs.Divisors.{greatest_divisor, floor_div};
ghost use Rattle.sd_rows.specs.RowOps.{sizes};

/// The greatest common divisor of two numbers; that of 0 and a number is the number.
pub fn gcd(a: u64, b: u64) -> u64
    ensures { IsGcd a b result }
{
    let mut greater = a;
    let mut lesser = b;
    while lesser != 0 {
        let rest = greater % lesser;
        greater = lesser;
        lesser = rest;
    }
    greater
}

/// The greatest common divisor of the factors.
pub fn divisor_of(parts: &[(u32, i128)]) -> u64
    requires proper { IsProper parts.now }
    requires small { are_small parts.now ≡ true }
    ensures value { result ≡ greatest_divisor (sizes parts.now) }
    ensures positive { 0 < result }
{
    let mut divisor = 0;
    for p in parts {
        divisor = gcd(divisor, p.1.unsigned_abs() as u64);
    }
    divisor.max(1)
}

/// The two numbers exchanged, each divided by the greatest common divisor of both.
pub fn multipliers(p: u64, q: u64) -> (u64, u64)
    requires first { 0 < p }
    requires second { 0 < q }
    ensures first { result.0 ≡ q / greatest_divisor (p ∷ q ∷ []) }
    ensures second { result.1 ≡ p / greatest_divisor (p ∷ q ∷ []) }
    ensures first_positive { 0 < result.0 }
    ensures second_positive { 0 < result.1 }
    ensures first_small { result.0 ≤ q }
    ensures second_small { result.1 ≤ p }
{
    let divisor = gcd(p, q);
    (q / divisor, p / divisor)
}

/// Rounded toward 0.
pub fn quotient(z: i128, divisor: u64) -> i128
    requires { 0 < divisor }
    ensures { result ≡ int_div z (pos divisor) }
{
    z / i128::from(divisor)
}

/// Rounded down.
pub fn quotient_down(z: i128, divisor: u64) -> i128
    requires { 0 < divisor }
    ensures { result ≡ floor_div z divisor }
{
    z.div_euclid(i128::from(divisor))
}
