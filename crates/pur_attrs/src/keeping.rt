//! Which attributes stay, and with which value.

ghost use Rattle.std.specs.Prelude.{◌≡◌, IfOk, OnOk};
ghost use Rattle.std.specs.List.{filter_map};
ghost use Rattle.pur_attrlist.specs.Attributes.{with_new};
ghost use Rattle.pur_attrlist.specs.Pairs.{attribute_of};
ghost use Rattle.pur_attrlist.specs.Texts.{text_of};
ghost use Rattle.pur_validity.specs.Attributes.{source_in};
ghost use Rattle.pur_attrs.specs.Steps.{kept_attribute, kept_attributes};
ghost use Rattle.pur_attrs.specs.Private.Parts.{source_of, with_one};

use crate::names::with_name_as_id;
use crate::strict::put_strict_style;
use pur_attrlist::{AttrList, Pair};
use pur_names::Element;
use pur_settings::Settings;
use pur_uri::Uri;
use pur_uripolicy::{UriGate, UriTest};
use pur_validity::{Reading, read_attribute};
use std::alloc::{AllocError, Global};

/// The attributes that stay, and the URI that their `src` was read as.
#[derive(Drop)]
pub(crate) struct Kept {
    pub attrs: AttrList,
    pub source: Option<Uri>,
}

/// The attributes of an element that stay, after its name is its id and Strict's style is put in: each that is declared,
/// permitted and read, with what its value is read as.
///
/// The error is want of memory.
pub(crate) fn kept_attributes<F: UriTest>(
    alloc: Global,
    settings: &Settings,
    gate: &UriGate<F>,
    element: Element,
    attrs: AttrList,
) -> Result<Kept, AllocError>
    ensures attrs { IfOk result (λ kept. kept.attrs ≡ kept_attributes settings.now gate.now element attrs) }
    ensures source { IfOk result (λ kept. kept.source ≡ source_of kept.attrs) }
{
    let mut attrs = with_name_as_id(alloc, element, attrs)?;
    put_strict_style(alloc, settings.doctype(), element, &mut attrs)?;
    let kept = read_attributes(alloc, settings, gate, element, attrs)?;
    Ok(kept)
}

// The attributes that are read.
fn read_attributes<F: UriTest>(
    alloc: Global,
    settings: &Settings,
    gate: &UriGate<F>,
    element: Element,
    attrs: AttrList,
) -> Result<Kept, AllocError>
    ensures attrs { IfOk result (λ kept. kept.attrs ≡ filter_map (kept_attribute settings.now gate.now element) attrs) }
    ensures source { IfOk result (λ kept. kept.source ≡ source_of kept.attrs) }
{
    let mut kept = Kept {
        attrs: AttrList::new(alloc),
        source: None,
    };
    for pair in attrs.into_pairs()? {
        keep(alloc, settings, gate, element, pair, &mut kept)?;
    }
    Ok(kept)
}

// Keeps an attribute with what its value is read as, if it is read.
fn keep<F: UriTest>(
    alloc: Global,
    settings: &Settings,
    gate: &UriGate<F>,
    element: Element,
    pair: Pair,
    kept: &mut Kept,
) -> Result<(), AllocError>
    requires { kept.old.source ≡ source_of kept.old.attrs }
    ensures attrs { OnOk result (kept.new.attrs ≡ with_one kept.old.attrs (kept_attribute settings.now gate.now element (attribute_of pair))) }
    ensures source { OnOk result (kept.new.source ≡ source_of kept.new.attrs) }
{
    let Pair { name, value } = pair;
    let read = read_attribute(
        alloc,
        settings,
        gate,
        element,
        name.as_str(),
        value.as_str(),
    )?;
    match read {
        Some(reading) => {
            put(kept, name, reading)?;
            Ok(())
        }
        None => Ok(()),
    }
}

// Puts what a value is read as behind the attributes that are kept, unless there is one of the name.
fn put(kept: &mut Kept, name: String, reading: Reading) -> Result<(), AllocError>
    requires kept { kept.old.source ≡ source_of kept.old.attrs }
    requires reading { reading.source ≡ source_in (text_of name) (text_of reading.value) }
    ensures attrs { OnOk result (kept.new.attrs ≡ with_new kept.old.attrs (text_of name) (text_of reading.value)) }
    ensures source { OnOk result (kept.new.source ≡ source_of kept.new.attrs) }
{
    let Reading { value, source } = reading;
    let is_new = kept.attrs.push_if_new(name, value)?;
    if !is_new {
        return Ok(());
    }
    kept.source = kept.source.take().or(source);
    Ok(())
}
