ghost use Rattle.std.specs.Prelude.{◌≡◌};
ghost use Rattle.gr_value.specs.Drawing.{drawn};

const MODULUS: u64 = 2147483647;

/// The number that is drawn behind this one.
pub fn drawn(number: u32) -> u32
    ensures { result ≡ drawn number }
{
    (u64::from(number) * 48271 % MODULUS) as u32
}
