// Numbers of a file.
ghost use Rattle.std.specs.Prelude.{◌≡◌, ◌↔◌, ℕ, ◌<◌, ◌≤◌, ◌^◌, length, Ok};
ghost use Rattle.std.specs.Char.{is_ascii_digit};
ghost use Rattle.std.specs.Fmt.{decimal};
ghost use Rattle.std.specs.List.{list_all};
ghost use Rattle.files.specs.declared.fault.FieldFault.TheVariants.{NotNumber as Unfit};
ghost use Rattle.files.specs.Faults.{given};
ghost use Rattle.files.specs.Numbers.{value_of, number_in};

use crate::fault::FieldFault;

// The number that at most six digits write.
fn digits(text: &[u8]) -> Result<u32, FieldFault>
    requires { length text.now ≤ 6 }
    ensures { result ≡ given (list_all is_ascii_digit text.now) (value_of text.now) Unfit }
{
    let mut n = 0;
    // No fold: that n stays small is known only from one digit to the next.
    for b in text {
        if !b.is_ascii_digit() {
            return Err(FieldFault::NotNumber);
        }
        n = n * 10 + u32::from(*b - b'0');
    }
    Ok(n)
}

/// Reads a field that is a number: `0`, or one to six digits without a leading zero.
pub fn number(field: &[u8]) -> Result<u32, FieldFault>
    ensures number { result ≡ number_in field.now }
    ensures written { (n : ℕ) → (result ≡ Ok n) ↔ ((n < 10 ^ 6) × (field.now ≡ decimal n)) }
{
    match field {
        [] | [b'0', _, ..] => Err(FieldFault::NotNumber),
        _ if field.len() > 6 => Err(FieldFault::NotNumber),
        _ => digits(field),
    }
}
