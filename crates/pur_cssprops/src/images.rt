//! URLs that a page embeds.
ghost use Rattle.std.specs.Prelude.{◌≡◌, IfOk, option_map};
ghost use Rattle.std.specs.Str.{chars};
ghost use Rattle.pur_text.specs.Texts.{text_of};
ghost use Rattle.pur_csstok.specs.Urls.{url_text};
ghost use Rattle.pur_uri.specs.Uris.{uri_text};
ghost use Rattle.pur_cssprops.specs.Forms.{embedded, image_read};

use crate::keywords::{Keywords, read_keyword};
use pur_csstok::read_url;
use pur_settings::Settings;
use pur_uri::{Uri, text_is_canonical};
use pur_uripolicy::{UriGate, UriTest, UriUse, read_uri};
use std::alloc::{AllocError, Global};

/// `none`, or a URL that may be embedded.
#[tactic(auto, unfolding(crate::specs::Forms::image_read))]
pub(crate) fn read_image<F: UriTest>(
    alloc: Global,
    settings: &Settings,
    gate: &UriGate<F>,
    text: &str,
) -> Result<Option<String>, AllocError>
    ensures { IfOk result (λ value. option_map text_of value ≡ image_read settings.now gate.now (chars text.now)) }
{
    if let Some(word) = read_keyword(alloc, Keywords::NoneAlone, text)? {
        return Ok(Some(word));
    }
    match read_url(alloc, text)? {
        Some(url) => embedded(alloc, settings, gate, url.as_str()),
        None => Ok(None),
    }
}

/// The text's URI in `url()`, where it may be embedded.
fn embedded<F: UriTest>(
    alloc: Global,
    settings: &Settings,
    gate: &UriGate<F>,
    text: &str,
) -> Result<Option<String>, AllocError>
    ensures { IfOk result (λ value. option_map text_of value ≡ embedded settings.now gate.now (chars text.now)) }
{
    match read_uri(alloc, settings, gate, UriUse::Embed, text)? {
        Some(uri) => {
            let url = url_text(alloc, &uri)?;
            Ok(Some(url))
        }
        None => Ok(None),
    }
}

/// The URI in `url()`, in double quotes.
fn url_text(alloc: Global, uri: &Uri) -> Result<String, AllocError>
    ensures { IfOk result (λ text. text_of text ≡ url_text (uri_text uri.now)) }
{
    text_is_canonical();
    let address = uri.write(alloc)?;
    let mut text = String::new(alloc);
    text.push_str("url(\"")?;
    text.push_str(address.as_str())?;
    text.push_str("\")")?;
    Ok(text)
}
