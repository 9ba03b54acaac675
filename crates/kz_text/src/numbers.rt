//! Decimal numbers.
ghost use Rattle.std.specs.Prelude.{◌≡◌, ◌+◌, ◌*◌, ◌<◌, ◌^◌, IsTrue, nat_lt, if◌then◌else◌, Some, None};
ghost use Rattle.std.specs.List.{list_all};
ghost use Rattle.std.specs.Str.Parse.{digits_value};
ghost use Rattle.std.specs.Char.{digit_value};
ghost use Rattle.kz_model.specs.Grammar.Tokens.{is_digit as digit_form, is_decimal as decimal_form, number_of};

/// The number that a text is: `0`, or 1 to 20 digits without a leading zero. None for any other
/// text, and for a number above 2^64 - 1.
pub fn read_u64(text: &[u8]) -> Option<u64>
    ensures { result ≡ number_of text.now }
{
    if is_decimal(text) {
        value_of(text)
    } else {
        None
    }
}

fn is_decimal(text: &[u8]) -> bool
    ensures { result ≡ decimal_form text.now }
{
    match text {
        [] => false,
        [first, others @ ..] => {
            others.len() <= 19 && (*first != b'0' || others.len() == 0) && all_digits(text)
        }
    }
}

fn all_digits(text: &[u8]) -> bool
    ensures { result ≡ list_all digit_form text.now }
{
    text.iter().all(|byte| is_digit(*byte))
}

fn is_digit(byte: u8) -> bool
    ensures { result ≡ digit_form byte }
{
    48 <= byte && byte <= 57
}

// The number that decimal digits write, where it is below 2^64.
fn value_of(text: &[u8]) -> Option<u64>
    requires { IsTrue (decimal_form text.now) }
    ensures { result ≡ (if nat_lt (digits_value 10 text.now) (2 ^ 64) then Some (digits_value 10 text.now) else None) }
{
    let mut value: u128 = 0;
    for byte in text {
        value = with_digit(value, *byte);
    }
    if value < 18446744073709551616 {
        Some(value as u64)
    } else {
        None
    }
}

fn with_digit(value: u128, byte: u8) -> u128
    requires few { value < 10 ^ 20 }
    requires digit { IsTrue (digit_form byte) }
    ensures value { result ≡ value * 10 + digit_value byte }
    ensures small { result < value * 10 + 10 }
{
    value * 10 + (byte - 48) as u128
}
