//! Reading a value by its form.
ghost use Rattle.std.specs.Prelude.{◌≡◌, IfOk, option_map};
ghost use Rattle.std.specs.Str.{chars};
ghost use Rattle.pur_text.specs.Texts.{text_of};
ghost use Rattle.pur_cssprops.specs.Forms.{form_read, value_read};

use crate::forms::ValueForm;
use crate::images::read_image;
use crate::keywords::{Keywords, read_keyword};
use crate::sequences::{read_border, read_decoration, read_words};
use crate::words::read_word;
use pur_csstok::read_families;
use pur_settings::Settings;
use pur_uripolicy::{UriGate, UriTest};
use std::alloc::{AllocError, Global};

/// What a value is read as by its form: its one text, or none where it has no reading. White space at its ends belongs to
/// it: `pur_csstok::split` gives values without.
///
/// `inherit`, in letters of either case, is read whatever the form is. A URL is read where its URI may be embedded under the
/// settings and the gate. What was read is read as itself.
///
/// The error is want of memory.
#[tactic(auto, unfolding(crate::specs::Forms::value_read))]
pub fn read_value<F: UriTest>(
    alloc: Global,
    settings: &Settings,
    gate: &UriGate<F>,
    form: ValueForm,
    raw: &str,
) -> Result<Option<String>, AllocError>
    ensures { IfOk result (λ value. option_map text_of value ≡ value_read settings.now gate.now form (chars raw.now)) }
{
    if let Some(word) = read_keyword(alloc, Keywords::Inherit, raw)? {
        return Ok(Some(word));
    }
    read_form(alloc, settings, gate, form, raw)
}

#[tactic(auto, unfolding(crate::specs::Forms::form_read))]
fn read_form<F: UriTest>(
    alloc: Global,
    settings: &Settings,
    gate: &UriGate<F>,
    form: ValueForm,
    raw: &str,
) -> Result<Option<String>, AllocError>
    ensures { IfOk result (λ value. option_map text_of value ≡ form_read settings.now gate.now form (chars raw.now)) }
{
    match form {
        ValueForm::Word(form) => read_word(alloc, form, raw),
        ValueForm::Image => read_image(alloc, settings, gate, raw),
        ValueForm::Families => read_families(alloc, raw),
        ValueForm::Words(form) => read_words(alloc, form, raw),
        ValueForm::Border => read_border(alloc, raw),
        ValueForm::Decoration => read_decoration(alloc, raw),
    }
}
