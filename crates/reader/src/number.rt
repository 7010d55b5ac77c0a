ghost use Rattle.std.specs.Prelude.{◌≡◌};
ghost use Rattle.reader.specs.Numbers.{decimal, number_of};

// The number that the digits write; none where it is over 2,147,483,647.
#[tactic(auto, using(crate::proofs::Decimal::past))]
pub fn value(digits: &[u8]) -> Option<i32>
    ensures { result ≡ number_of (decimal 0 digits.now) }
{
    let mut sum: u32 = 0;
    for d in digits {
        sum = sum
            .checked_mul(10)?
            .checked_add(d.saturating_sub(b'0') as u32)?;
    }
    i32::try_from(sum).ok()
}
