ghost use Rattle.std.specs.Prelude.{◌≡◌, ◌/◌, ◌%◌, ◌<◌};

// The quotient and the remainder together.
pub fn divide(n: u64, d: u64) -> (u64, u64)
    requires { 0 < d }
    ensures { result ≡ (n / d, n % d) }
{
    (n / d, n % d)
}
