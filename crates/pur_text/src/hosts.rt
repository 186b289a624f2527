//! Canonical hosts: names, and IPv6 addresses in brackets (RFC 3986, section 3.2.2).
ghost use Rattle.std.specs.Prelude.{◌≡◌, ◌≤◌, length};
ghost use Rattle.std.specs.List.{list_all};
ghost use Rattle.pur_text.specs.Hosts.{is_host, is_host_name, is_label, is_label_byte, is_letter_or_digit};

use crate::addresses::is_ip6_literal;

/// Whether the text is a canonical host. That is at most 255 bytes. It is one or more labels joined by `.`, each of the
/// letters a to z, digits, `-` and `_`, beginning and ending with a letter or digit; or it is `[`, an IPv6address of RFC
/// 3986, section 3.2.2, with digits in lower case, and `]`.
#[tactic(auto, unfolding(crate::specs::Hosts::is_host))]
pub fn is_host(text: &str) -> bool
    ensures { result ≡ is_host text.now }
{
    let bytes = text.as_bytes();
    bytes.len() <= 255 && (is_host_name(bytes) || is_ip6_literal(bytes))
}

fn is_host_name(text: &[u8]) -> bool
    ensures { result ≡ is_host_name text.now }
{
    text.split(|byte| *byte == b'.').all(is_label)
}

fn is_label(label: &[u8]) -> bool
    ensures { result ≡ is_label label.now }
{
    if label.is_empty() {
        return false;
    }
    is_letter_or_digit(&label[0])
        && is_letter_or_digit(&label[label.len() - 1])
        && has_label_bytes(label)
}

fn has_label_bytes(label: &[u8]) -> bool
    ensures { result ≡ list_all is_label_byte label.now }
{
    label.iter().all(is_label_byte)
}

fn is_label_byte(byte: &u8) -> bool
    ensures { result ≡ is_label_byte byte.now }
{
    matches!(byte, b'a'..=b'z' | b'0'..=b'9' | b'-' | b'_')
}

fn is_letter_or_digit(byte: &u8) -> bool
    ensures { result ≡ is_letter_or_digit byte.now }
{
    matches!(byte, b'a'..=b'z' | b'0'..=b'9')
}
