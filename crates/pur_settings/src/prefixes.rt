//! The texts that may stand in front of ids.

ghost use Rattle.std.specs.Prelude.{◌≡◌};
ghost use Rattle.std.specs.List.{list_all};
ghost use Rattle.pur_settings.specs.Prefixes.{begins_an_id, is_id_byte, is_id_prefix, is_letter};

// Whether a text may stand in front of ids: at most 64 bytes that begin an id.
pub(crate) fn is_id_prefix(text: &str) -> bool
    ensures { result ≡ is_id_prefix text.now }
{
    let bytes = text.as_bytes();
    bytes.len() <= 64 && begins_an_id(bytes)
}

// Whether a text is empty, or an id by itself.
fn begins_an_id(text: &[u8]) -> bool
    ensures { result ≡ begins_an_id text.now }
{
    match text {
        [first, behind @ ..] => is_letter(*first) && has_id_bytes(behind),
        [] => true,
    }
}

fn has_id_bytes(text: &[u8]) -> bool
    ensures { result ≡ list_all is_id_byte text.now }
{
    text.iter().all(is_id_byte)
}

fn is_id_byte(byte: &u8) -> bool
    ensures { result ≡ is_id_byte byte.now }
{
    is_letter(*byte) || matches!(byte, b'0'..=b'9' | b'-' | b'_' | b'.' | b':')
}

fn is_letter(byte: u8) -> bool
    ensures { result ≡ is_letter byte }
{
    matches!(byte, b'A'..=b'Z' | b'a'..=b'z')
}
