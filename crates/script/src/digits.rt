// Numbers, as decimal digits show them.
ghost use Rattle.std.specs.Char.{is_ascii_digit};
ghost use Rattle.std.specs.Prelude.{◌≡◌, ◌+◌, ◌-◌, ◌*◌, ◌<◌, ◌^◌, true, SomeIff};
ghost use Rattle.std.specs.List.{list_all};
ghost use Rattle.script.specs.Fields.{is_number, number, below, value, fitting};

use crate::fault::LineFault;

// Whether all bytes are digits.
fn are_digits(text: &[u8]) -> bool
    ensures { result ≡ list_all is_ascii_digit text.now }
{
    text.iter().all(|byte| byte.is_ascii_digit())
}

// Whether a field is digits with no needless leading zero.
fn is_number(field: &[u8]) -> bool
    ensures { result ≡ is_number field.now }
{
    match field {
        [] | [b'0', _, ..] => false,
        _ => are_digits(field),
    }
}

// A number with one digit more, where 64 bits hold it.
fn with_digit(number: u64, digit: u8) -> Option<u64>
    requires { is_ascii_digit digit ≡ true }
    ensures { SomeIff result (10 * number + (digit - 48) < 2 ^ 64) (10 * number + (digit - 48)) }
{
    number.checked_mul(10)?.checked_add(u64::from(digit - b'0'))
}

// The number that digits show, where 64 bits hold it.
fn value(digits: &[u8]) -> Option<u64>
    requires { list_all is_ascii_digit digits.now ≡ true }
    ensures { result ≡ fitting (value digits.now) }
{
    let mut number = 0;
    for digit in digits {
        let Some(longer) = with_digit(number, *digit) else {
            return None;
        };
        number = longer;
    }
    Some(number)
}

// The number that a field shows, or none where 64 bits are too few.
pub(crate) fn number(field: &[u8]) -> Result<Option<u64>, LineFault>
    ensures { result ≡ number field.now }
{
    if !is_number(field) {
        return Err(LineFault::Form);
    }
    Ok(value(field))
}

// A number where 64 bits suffice.
pub(crate) fn long(number: Option<u64>) -> Result<u64, LineFault>
    ensures { result ≡ below (2 ^ 64) number }
{
    number.ok_or(LineFault::Great)
}

// A number where 32 bits suffice.
pub(crate) fn short(number: Option<u64>) -> Result<u32, LineFault>
    ensures { result ≡ below (2 ^ 32) number }
{
    let number = long(number)?;
    u32::try_from(number).map_err(|_| LineFault::Great)
}

// The same, of a node, a slot or a count of nodes.
pub(crate) fn index(number: Option<u64>) -> Result<usize, LineFault>
    ensures { result ≡ below (2 ^ 32) number }
{
    Ok(short(number)? as usize)
}
