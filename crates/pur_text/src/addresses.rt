//! IPv6 addresses (RFC 3986, section 3.2.2) with digits in lower case.
ghost use Rattle.std.specs.Prelude.{◌≡◌, ◌==◌, ◌+◌, ◌≤◌, ◌<◌, ◌∷◌, [], length, drop, count_by, IfSome, IfNone};
ghost use Rattle.std.specs.List.{list_all, position};
ghost use Rattle.pur_text.specs.Hosts.{is_ip6_literal, is_ip6_address, is_whole_ip6_address, is_gapped_ip6_address, group_count, between_colons, between_dots, side_pieces, is_group, is_ip4_address, is_octet, is_digit, is_hex_digit};

use bstr::ByteSlice;

/// Whether the text is `[`, an IPv6 address and `]`.
pub(crate) fn is_ip6_literal(text: &[u8]) -> bool
    requires { length text.now ≤ 255 }
    ensures { result ≡ is_ip6_literal text.now }
{
    match text {
        [b'[', address @ .., b']'] => is_ip6_address(address),
        _ => false,
    }
}

fn is_ip6_address(text: &[u8]) -> bool
    requires { length text.now ≤ 255 }
    ensures { result ≡ is_ip6_address text.now }
{
    match text.split_once_str(b"::") {
        Some((before, behind)) => is_gapped_ip6_address(before, behind),
        None => is_whole_ip6_address(text),
    }
}

fn is_whole_ip6_address(text: &[u8]) -> bool
    requires { length text.now ≤ 255 }
    ensures { result ≡ is_whole_ip6_address text.now }
{
    matches!(group_count(text), Some(8))
}

fn is_gapped_ip6_address(before: &[u8], behind: &[u8]) -> bool
    requires before { length before.now ≤ 255 }
    requires behind { length behind.now ≤ 255 }
    ensures { result ≡ is_gapped_ip6_address before.now behind.now }
{
    if !has_groups(before) {
        return false;
    }
    match side_group_count(behind) {
        Some(groups) => piece_count(before) + groups <= 7,
        None => false,
    }
}

/// Whether each piece of the side of a `::` is a group.
fn has_groups(side: &[u8]) -> bool
    ensures { result ≡ list_all is_group (side_pieces side.now) }
{
    side.is_empty() || are_groups(side)
}

fn are_groups(text: &[u8]) -> bool
    ensures { result ≡ list_all is_group (between_colons text.now) }
{
    text.split(|byte| *byte == b':').all(is_group)
}

/// How many pieces the side of a `::` has.
fn piece_count(side: &[u8]) -> usize
    requires { length side.now ≤ 255 }
    ensures count { result ≡ length (side_pieces side.now) }
    ensures small { result ≤ 256 }
{
    if side.is_empty() {
        0
    } else {
        count_of(side, b':') + 1
    }
}

/// How many groups the side behind a `::` has, if its pieces are groups.
fn side_group_count(side: &[u8]) -> Option<usize>
    requires { length side.now ≤ 255 }
    ensures count { result ≡ group_count (side_pieces side.now) }
    ensures small { IfSome result (λ groups. groups ≤ 257) }
{
    if side.is_empty() {
        Some(0)
    } else {
        group_count(side)
    }
}

/// How many groups the pieces between the colons stand for, if each is one and the last is one or an IPv4 address.
fn group_count(text: &[u8]) -> Option<usize>
    requires { length text.now ≤ 255 }
    ensures count { result ≡ group_count (between_colons text.now) }
    ensures small { IfSome result (λ groups. groups ≤ 257) }
{
    let mut count = 0;
    let mut rest = text;
    'counting: while let Some((piece, behind)) = cut_at_colon(rest) {
        if !is_group(piece) {
            return None;
        }
        count += 1;
        rest = behind;
    }
    if is_group(rest) {
        return Some(count + 1);
    }
    if is_ip4_address(rest) {
        return Some(count + 2);
    }
    None
}

/// What stands before the first colon, and what stands behind it.
fn cut_at_colon(text: &[u8]) -> Option<(&[u8], &[u8])>
    ensures cut { IfSome result (λ parts. between_colons text.now ≡ parts.0.now ∷ between_colons parts.1.now) }
    ensures shorter { IfSome result (λ parts. length parts.1.now < length text.now) }
    ensures whole { IfNone result (between_colons text.now ≡ text.now ∷ []) }
{
    match colon_place(text) {
        Some(end) => {
            let (piece, tail) = text.split_at(end);
            Some((piece, behind_first(tail)))
        }
        None => None,
    }
}

/// Where the first colon stands.
fn colon_place(text: &[u8]) -> Option<usize>
    ensures { result ≡ position (λ b. b == 0x3A) text.now }
{
    text.iter().position(|byte| *byte == b':')
}

/// All but the first byte.
fn behind_first(text: &[u8]) -> &[u8]
    ensures { result.now ≡ drop 1 text.now }
{
    match text {
        [_, behind @ ..] => behind,
        [] => text,
    }
}

fn is_group(piece: &[u8]) -> bool
    ensures { result ≡ is_group piece.now }
{
    matches!(piece.len(), 1..=4) && has_hex_digits(piece)
}

fn has_hex_digits(piece: &[u8]) -> bool
    ensures { result ≡ list_all is_hex_digit piece.now }
{
    piece.iter().all(is_hex_digit)
}

fn is_hex_digit(byte: &u8) -> bool
    ensures { result ≡ is_hex_digit byte.now }
{
    matches!(byte, b'0'..=b'9' | b'a'..=b'f')
}

fn is_ip4_address(text: &[u8]) -> bool
    ensures { result ≡ is_ip4_address text.now }
{
    count_of(text, b'.') == 3 && has_octets(text)
}

fn has_octets(text: &[u8]) -> bool
    ensures { result ≡ list_all is_octet (between_dots text.now) }
{
    text.split(|byte| *byte == b'.').all(is_octet)
}

/// How often the byte stands in the text.
fn count_of(text: &[u8], byte: u8) -> usize
    ensures { result ≡ count_by (λ b. b == byte) text.now }
{
    text.iter().filter(|other| **other == byte).count()
}

/// Whether the piece is a number 0 to 255 without leading zeros.
fn is_octet(piece: &[u8]) -> bool
    ensures { result ≡ is_octet piece.now }
{
    match piece {
        [a] => is_digit(*a),
        [a, b] => *a != b'0' && is_digit(*a) && is_digit(*b),
        [a, b, c] => is_long_octet(*a, *b, *c),
        _ => false,
    }
}

/// Whether the three bytes are a number 100 to 255.
fn is_long_octet(a: u8, b: u8, c: u8) -> bool
    ensures { result ≡ is_octet (a ∷ b ∷ c ∷ []) }
{
    if !is_digit(b) || !is_digit(c) {
        return false;
    }
    match a {
        b'1' => true,
        b'2' => b < b'5' || (b == b'5' && c <= b'5'),
        _ => false,
    }
}

fn is_digit(byte: u8) -> bool
    ensures { result ≡ is_digit byte }
{
    matches!(byte, b'0'..=b'9')
}
