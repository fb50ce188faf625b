// Hex digits one by one.
ghost use Rattle.std.specs.Prelude.{◌≡◌, ◌<◌, Some, None, IfSome, if◌then◌else◌};
ghost use Rattle.filter_model.specs.Filter.{hex_digit as digit_of, is_hex, hex_value};
ghost use Rattle.stream_filters.specs.Parts.{value_or_none};

/// The lower-case digit of a number below 16.
pub(crate) fn hex_digit(value: u8) -> u8
    requires { value < 16 }
    ensures { result ≡ digit_of value }
{
    if value < 10 {
        b'0' + value
    } else {
        b'a' - 10 + value
    }
}

/// The number that a digit of either case stands for, 255 for a byte that is no digit.
pub(crate) fn value_or_none(byte: u8) -> u8
    ensures { result ≡ value_or_none byte }
{
    let digit = byte.wrapping_sub(b'0');
    let letter = byte.to_ascii_lowercase().wrapping_sub(b'a');
    if digit < 10 {
        digit
    } else if letter < 6 {
        10 + letter
    } else {
        255
    }
}

/// The number that a digit of either case stands for, None for a byte that is no digit.
pub(crate) fn digit_value(byte: u8) -> Option<u8>
    ensures value { result ≡ (if is_hex byte then Some (hex_value byte) else None) }
    ensures small { IfSome result (λ value. value < 16) }
{
    let value = value_or_none(byte);
    if value < 16 { Some(value) } else { None }
}
