// Numbers in decimal digits.
ghost use Rattle.std.specs.Prelude.{◌≡◌, ◌-◌, ◌^◌, ◌↔◌, min, IsTrue, IsSome, IfSome};
ghost use Rattle.std.specs.Str.Parse.{digits_value};
ghost use Rattle.pipes_tuple.specs.Reading.{is_numeral};

/// The number that the digits write, or the greatest of 64 bits where theirs is greater; none where
/// the bytes are not one or more decimal digits. Leading zeros are digits like others.
pub fn digits_value(digits: &[u8]) -> Option<u64>
    ensures exact { IsSome result ↔ IsTrue (is_numeral digits.now) }
    ensures value { IfSome result
        (λ number. number ≡ min (digits_value 10 digits.now) (2 ^ 64 - 1)) }
{
    if digits.is_empty() {
        return None;
    }
    let mut number = 0u64;
    for digit in digits {
        if !digit.is_ascii_digit() {
            return None;
        }
        number = number
            .saturating_mul(10)
            .saturating_add(u64::from(*digit - b'0'));
    }
    Some(number)
}
