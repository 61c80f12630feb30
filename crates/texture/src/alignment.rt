// The alignment of rows: the least number that both the pitch and a block divide.
ghost use Rattle.std.specs.Prelude.{◌≡◌, ◌*◌, ◌^◌, ◌<◌, ◌≤◌};
ghost use Rattle.std.specs.Int.{IsGcd};
ghost use Rattle.texture.specs.Copies.{lcm};

// The least common multiple of two numbers.
#[tactic(auto, using(crate::proofs::Multiples::lcm_over, crate::proofs::Multiples::lcm_some, crate::proofs::Multiples::lcm_most))]
pub(crate) fn common_multiple(a: u32, b: u32) -> u32
    requires some { (0 < a) × (0 < b) }
    requires fits { a * b < 2 ^ 32 }
    ensures answer { result ≡ lcm a b }
    ensures some { 0 < result }
    ensures few { result ≤ a * b }
{
    a * b / common_divisor(a, b)
}

// The greatest common divisor, by Euclid's remainders: the library has none.
fn common_divisor(a: u32, b: u32) -> u32
    requires { 0 < a }
    ensures some { 0 < result }
    ensures greatest { IsGcd a b result }
{
    let mut divisor = a;
    let mut rest = b;
    while rest > 0 {
        (divisor, rest) = (rest, divisor % rest);
    }
    divisor
}
