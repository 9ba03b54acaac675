//! Bytes in hexadecimal digits.
ghost use Rattle.std.specs.Prelude.{◌≡◌, ◌+◌, ◌*◌, ◌/◌, ◌<◌, ◌++◌, length, drop, IsTrue, IfSome, IfNone, if◌then◌else◌, Some, None};
ghost use Rattle.std.specs.List.{list_all};
ghost use Rattle.kz_model.specs.Grammar.Tokens.{is_hex_digit as hex_digit_form, hex_digit as digit_of, is_hex as hex_form, bytes_of_hex};

/// Puts the bytes that a text is to the front of `into`, and gives their number. The text is 2 to
/// 64 lower-case hexadecimal digits, an even number of them. None for any other text.
pub fn read_hex(text: &[u8], into: &mut [u8; 32]) -> Option<usize>
    ensures count { result ≡ (if hex_form text.now then Some (length text.now / 2) else None) }
    ensures filled { IfSome result (λ k. into.new ≡ bytes_of_hex text.now ++ drop k into.old) }
    ensures unchanged { IfNone result (into.new ≡ into.old) }
{
    if !is_hex(text) {
        return None;
    }
    let count = text.len() / 2;
    for place in 0..count {
        into[place] = byte_of(text[2 * place], text[2 * place + 1]);
    }
    Some(count)
}

fn is_hex(text: &[u8]) -> bool
    ensures { result ≡ hex_form text.now }
{
    2 <= text.len() && text.len() <= 64 && text.len() % 2 == 0 && all_hex(text)
}

fn all_hex(text: &[u8]) -> bool
    ensures { result ≡ list_all hex_digit_form text.now }
{
    text.iter().all(|byte| is_hex_digit(*byte))
}

fn is_hex_digit(byte: u8) -> bool
    ensures { result ≡ hex_digit_form byte }
{
    (48 <= byte && byte <= 57) || (97 <= byte && byte <= 102)
}

fn byte_of(high: u8, low: u8) -> u8
    requires high { IsTrue (hex_digit_form high) }
    requires low { IsTrue (hex_digit_form low) }
    ensures { result ≡ 16 * digit_of high + digit_of low }
{
    16 * hex_digit(high) + hex_digit(low)
}

fn hex_digit(byte: u8) -> u8
    requires { IsTrue (hex_digit_form byte) }
    ensures value { result ≡ digit_of byte }
    ensures small { result < 16 }
{
    if byte <= 57 { byte - 48 } else { byte - 87 }
}
