//! Digits at the ends of a text.
ghost use Rattle.std.specs.Prelude.{◌≡◌, ◌≤◌, ◌-◌, ◌+◌, ◌==◌, ◌&&◌, not, length, take, drop};
ghost use Rattle.std.specs.List.{list_all, prefix_len, suffix_len};
ghost use Rattle.pur_csstok.specs.Numbers.{is_digit, is_zero, are_digits, front_digits, behind_digits, without_leading_zeros, without_trailing_zeros};

pub(crate) fn is_digit(byte: u8) -> bool
    ensures { result ≡ is_digit byte }
{
    matches!(byte, b'0'..=b'9')
}

/// The digits at the front of the text, and what stands behind them.
pub(crate) fn cut_digits(text: &[u8]) -> (&[u8], &[u8])
    ensures digits { result.0.now ≡ front_digits text.now }
    ensures behind { result.1.now ≡ behind_digits text.now }
{
    text.split_at(digit_count(text))
}

/// How many digits the text begins with.
fn digit_count(text: &[u8]) -> usize
    ensures { result ≡ prefix_len is_digit text.now }
{
    text.iter().take_while(|&&byte| is_digit(byte)).count()
}

fn leading_zeros(digits: &[u8]) -> usize
    ensures { result ≡ prefix_len is_zero digits.now }
{
    digits.iter().take_while(|&&byte| byte == b'0').count()
}

fn trailing_zeros(digits: &[u8]) -> usize
    ensures { result ≡ suffix_len is_zero digits.now }
{
    digits
        .iter()
        .rev()
        .take_while(|&&byte| byte == b'0')
        .count()
}

/// Whether the text is one or more digits.
pub(crate) fn are_digits(text: &[u8]) -> bool
    ensures { result ≡ are_digits text.now }
{
    !text.is_empty() && has_digits_alone(text)
}

fn has_digits_alone(text: &[u8]) -> bool
    ensures { result ≡ list_all is_digit text.now }
{
    text.iter().all(|&byte| is_digit(byte))
}

/// The digits without the zeros at their front.
pub(crate) fn without_leading_zeros(digits: &[u8]) -> &[u8]
    ensures { result.now ≡ without_leading_zeros digits.now }
{
    let (_, rest) = digits.split_at(leading_zeros(digits));
    rest
}

/// The digits without the zeros at their end.
pub(crate) fn without_trailing_zeros(digits: &[u8]) -> &[u8]
    ensures { result.now ≡ without_trailing_zeros digits.now }
{
    let (kept, _) = digits.split_at(digits.len() - trailing_zeros(digits));
    kept
}

/// All but the first byte.
pub(crate) fn behind_first(text: &[u8]) -> &[u8]
    ensures { result.now ≡ drop 1 text.now }
{
    match text {
        [_, behind @ ..] => behind,
        [] => text,
    }
}
