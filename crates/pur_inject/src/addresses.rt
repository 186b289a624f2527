//! Addresses in runs of the characters of which they are made.

ghost use Rattle.std.specs.Prelude.{◌≡◌, ◌<◌, ◌≤◌, ◌&&◌, true, false, length, nat_eq, nat_lt, IfOk, IsTrue, codes};
ghost use Rattle.std.specs.List.{list_all, list_any, starts_with, suffix_len};
ghost use Rattle.std.specs.Str.{chars, IsUtf8};
ghost use Rattle.pur_inject.specs.Addresses.{is_address_character, is_end_mark, begins_address, is_address, address_place, before_address, from_address, without_end_marks, end_marks_of};
ghost use Rattle.pur_inject.specs.Links.{may_be_linked};
ghost use Rattle.pur_inject.specs.Private.Cutting.{is_colonless};

use pur_settings::Settings;
use pur_uripolicy::{UriGate, UriTest, UriUse, read_uri};
use std::alloc::{AllocError, Global};

/// What stands in a run before an address, the address without the marks at its end, and these marks. Where the run has no
/// address, it stands before, and the others are empty.
pub(crate) fn address_in(run: &str) -> (&str, &str, &str)
    requires { IsTrue (list_all is_address_character run.now) }
    ensures text { IsUtf8 result.0.now × IsUtf8 result.1.now × IsUtf8 result.2.now }
    ensures before { chars result.0.now ≡ before_address run.now }
    ensures address { chars result.1.now ≡ without_end_marks (from_address run.now) }
    ensures bytes { result.1.now ≡ without_end_marks (from_address run.now) }
    ensures marks { chars result.2.now ≡ end_marks_of (from_address run.now) }
{
    let (before, from) = run.split_at(address_place(run.as_bytes()));
    let (address, marks) = from.split_at(from.len() - end_mark_count(from.as_bytes()));
    (before, address, marks)
}

// The place in a run where an address begins, or the run's length.
fn address_place(run: &[u8]) -> usize
    ensures place { result ≡ address_place false run.now }
    ensures bound { result ≤ length run.now }
{
    let mut within = false;
    let mut rest = run;
    'searching: while let [first, behind @ ..] = rest {
        if !within && begins_address(rest) {
            return run.len() - rest.len();
        }
        within = first.is_ascii_alphanumeric();
        rest = behind;
    }
    run.len()
}

fn begins_address(text: &[u8]) -> bool
    ensures { result ≡ begins_address text.now }
{
    text.starts_with(b"http://") || text.starts_with(b"https://") || text.starts_with(b"ftp://")
}

// How many marks that end no address a text ends with.
fn end_mark_count(text: &[u8]) -> usize
    ensures { result ≡ suffix_len is_end_mark text.now }
{
    text.iter()
        .rev()
        .take_while(|&&byte| matches!(byte, b'.' | b':' | b'!' | b'?'))
        .count()
}

fn is_address(text: &[u8]) -> bool
    ensures { result ≡ is_address text.now }
{
    is_longer(text, b"http://") || is_longer(text, b"https://") || is_longer(text, b"ftp://")
}

fn is_longer(text: &[u8], prefix: &[u8]) -> bool
    ensures { result ≡ (starts_with nat_eq text.now prefix.now && nat_lt (length prefix.now) (length text.now)) }
{
    text.starts_with(prefix) && prefix.len() < text.len()
}

/// Whether a text is an address longer than its prefix, and may be what a link leads to. The error is want of memory.
pub(crate) fn may_be_linked<F: UriTest>(
    alloc: Global,
    settings: &Settings,
    gate: &UriGate<F>,
    address: &str,
) -> Result<bool, AllocError>
    ensures { IfOk result (λ is. is ≡ (is_address address.now && may_be_linked settings.now gate.now (chars address.now))) }
{
    if !is_address(address.as_bytes()) {
        return Ok(false);
    }
    let uri = read_uri(alloc, settings, gate, UriUse::Link, address)?;
    Ok(uri.is_some())
}

/// How many addresses a text has at most: each begins with its prefix.
pub(crate) fn prefix_count(text: &str) -> usize {
    let mut count = 0usize;
    let mut rest = text.as_bytes();
    'counting: while let [_, behind @ ..] = rest {
        if begins_address(rest) {
            count = count.saturating_add(1);
        }
        rest = behind;
    }
    count
}

/// Whether a text has no colon: then no address begins in it.
pub(crate) fn is_colonless(text: &str) -> bool
    ensures colonless { result ≡ true → is_colonless (chars text.now) ≡ true }
    ensures some { result ≡ false → 0 < length text.now }
{
    are_colonless(text.as_bytes())
}

fn are_colonless(bytes: &[u8]) -> bool
    ensures { result ≡ is_colonless bytes.now }
{
    bytes.iter().all(|&byte| byte != b':')
}
