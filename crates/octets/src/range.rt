ghost use Rattle.std.specs.Prelude.{◌≡◌};
ghost use Rattle.octets.specs.Ranges.{one_to_sixteen};

/// Whether a number is 1 to 16, as flow counts and weights are.
// A test and no type of its own: flow counts and weights are plain numbers to callers, of whom a type would ask more.
pub fn one_to_sixteen(n: u8) -> bool
    ensures { result ≡ one_to_sixteen n }
{
    (1..=16).contains(&n)
}
