ghost use Rattle.std.specs.Prelude.{◌≡◌, min};

// A count as a byte; the greatest where it is larger. Two functions: std has no bound by which one could name the
// greatest value of its type, and with that as a parameter one would be no plainer.
pub fn byte(n: usize) -> u8
    ensures { result ≡ min n 255 }
{
    u8::try_from(n).unwrap_or(255)
}

// A count as a number of 16 bits; the greatest where it is larger.
pub fn short(n: usize) -> u16
    ensures { result ≡ min n 65535 }
{
    u16::try_from(n).unwrap_or(65535)
}
