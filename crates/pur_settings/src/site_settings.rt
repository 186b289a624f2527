//! The settings of a site.

ghost use Rattle.std.specs.Prelude.{◌≡◌, ◌≢◌, IsTrue, false, ◌≤◌, ◌^◌, length, map, Some, Err, IfErr, is_some, not, ◌&&◌, ◌||◌, option_copied, string_bytes};
ghost use Rattle.std.specs.List.{list_all, list_any};
ghost use Rattle.pur_text.specs.Hosts.{is_host};
ghost use Rattle.pur_names.specs.Elements.{same_element};
ghost use Rattle.pur_modules.specs.Groups.{is_among, of_forms};
ghost use Rattle.pur_settings.specs.Items.{covers, is_language};
ghost use Rattle.pur_settings.specs.Prefixes.{is_id_prefix};
ghost use Rattle.pur_settings.specs.Rules.{default_rules, is_for_fragments, is_host_or_none, is_in_conflict, is_listed, permits_element, permits_attribute, permits_property, permits_a_scheme};
ghost use Rattle.pur_settings.specs.Sets.{same};
ghost use Rattle.pur_settings.specs.Private.Items.{is_named};
ghost use Rattle.pur_settings.specs.Settings.{settings_of, IsRefusedFor};

use crate::faults::SettingsFault;
use crate::items::Item;
use crate::name_set::{NameSet, Sort};
use crate::reading::read_table;
use crate::sorts::{Elements, Items, Properties, Schemes, has_attr};
use pur_modules::{Content, Doctype, attributes, declares, is_of_forms, required};
use pur_names::{Attr, Element, SchemeName, StyleProp};
use std::alloc::Global;
use std::marker::Model;

/// What a site configures. Contracts see the record of what the settings say.
///
/// The fragment holds what a `div` holds or what a `span` holds, and nothing else. The hosts are canonical hosts, and the
/// site's own is there where no other may be reached. What stands in front of ids is nothing, or an id by itself, of at
/// most 64 bytes. The elements of forms may not stand in the output.
#[derive(Drop)]
pub struct Settings {
    attributes: Option<Items>,
    auto_paragraph: bool,
    denied_attributes: Items,
    denied_elements: Elements,
    denied_hosts: Option<Vec<String>>,
    denied_properties: Properties,
    denied_schemes: Schemes,
    doctype: Doctype,
    elements: Option<Elements>,
    escapes_foreign: bool,
    external: bool,
    forms: bool,
    host: Option<String>,
    id_prefix: Option<String>,
    ids: bool,
    linkify: bool,
    parent: Content,
    properties: Option<Properties>,
    schemes: Option<Schemes>,
}

impl Model for Settings {
    ghost use Rattle.std.specs.Prelude.{option_map, string_bytes};
    ghost use Rattle.std.specs.Prelude.{◌≡◌, IsTrue, false, is_some, ◌||◌};
    ghost use Rattle.std.specs.List.{list_all};
    ghost use Rattle.pur_text.specs.Hosts.{is_host};
    ghost use Rattle.pur_settings.specs.Prefixes.{is_id_prefix};
    ghost use Rattle.pur_settings.specs.Rules.{Rules, is_for_fragments, is_host_or_none};
    ghost use Rattle.pur_settings.specs.Private.Texts.{text_held, texts_held};

    ghost Value = { Rules };

    ghost view = { λ settings. record {
      attributes = settings.attributes;
      auto_paragraph = settings.auto_paragraph;
      denied_attributes = settings.denied_attributes;
      denied_elements = settings.denied_elements;
      denied_hosts = texts_held settings.denied_hosts;
      denied_properties = settings.denied_properties;
      denied_schemes = settings.denied_schemes;
      doctype = settings.doctype;
      elements = settings.elements;
      escapes_foreign = settings.escapes_foreign;
      external = settings.external;
      forms = settings.forms;
      host = option_map string_bytes settings.host;
      id_prefix = text_held settings.id_prefix;
      ids = settings.ids;
      linkify = settings.linkify;
      parent = settings.parent;
      properties = settings.properties;
      schemes = settings.schemes;
    } };

    ghost invariant = { λ settings. record {
      parent : IsTrue (is_for_fragments settings.parent);
      denied : IsTrue (list_all is_host (texts_held settings.denied_hosts));
      forms : settings.forms ≡ false;
      own : IsTrue (is_host_or_none (option_map string_bytes settings.host));
      prefix : IsTrue (is_id_prefix (text_held settings.id_prefix));
      reach : IsTrue (settings.external || is_some (option_map string_bytes settings.host));
    } };
}

impl Settings {
    /// The settings of a site that sets nothing: all of Transitional, without ids, links or paragraphs of the filter's.
    ///
    /// No list is made, so this takes no memory.
    #[tactic(auto, using(crate::proofs::ItemLemmas::items_counted))]
    pub fn defaults() -> Settings
        ensures { result ≡ default_rules }
    {
        Settings {
            attributes: None,
            auto_paragraph: false,
            denied_attributes: NameSet::new(),
            denied_elements: NameSet::new(),
            denied_hosts: None,
            denied_properties: NameSet::new(),
            denied_schemes: NameSet::new(),
            doctype: Doctype::Transitional,
            elements: None,
            escapes_foreign: false,
            external: true,
            forms: false,
            host: None,
            id_prefix: None,
            ids: false,
            linkify: false,
            parent: Content::Flow,
            properties: None,
            schemes: None,
        }
    }

    /// Reads a settings text of at most 65,536 bytes: a TOML document with the keys `attributes`,
    /// `auto_paragraph`, `denied_hosts`, `doctype`, `elements`, `external`, `host`, `id_prefix`, `ids`, `linkify`, `parent`,
    /// `properties`, `schemes` and `version` at its top level; where `version` is 2 also `denied_attributes`, `denied_elements`, `denied_properties` and
    /// `denied_schemes`.
    ///
    /// Fails at the first offence in the order of the keys' bytes; after all keys, where `external` is false and `host`
    /// isn't there; and where memory is wanting.
    pub fn read(alloc: Global, text: &[u8]) -> Result<Settings, SettingsFault>
        requires { length text.now ≤ 2 ^ 16 }
        ensures value { result ≢ Err SettingsFault.Memory → result ≡ settings_of text.now }
        ensures first { IfErr result (λ fault. fault ≢ SettingsFault.Memory → fault ≢ SettingsFault.NotToml → IsRefusedFor text.now fault) }
    {
        match toml::table_from_slice(alloc, text) {
            Ok(table) => read_table(alloc, &table),
            Err(error) => {
                if error.is_memory() {
                    Err(SettingsFault::Memory)
                } else {
                    Err(SettingsFault::NotToml)
                }
            }
        }
    }

    /// Whether the element may stand in what the filter writes: the doctype has it, it is none of forms unless these may
    /// stand there, the text's list has it, if there is one, and it isn't denied.
    pub fn permits(&self, element: Element) -> bool
        ensures { result ≡ permits_element self.now element }
    {
        declares(self.doctype, element) && self.lists_element(element)
    }

    // Whether the text's list has the element, if there is one, and it isn't denied; where none of forms may stand in the
    // output, it is none of them.
    fn lists_element(&self, element: Element) -> bool
        ensures { result ≡ ((self.now.forms || not (is_among of_forms element)) && is_listed self.now.elements self.now.denied_elements (same_element element)) }
    {
        self.admits(element) && lists(&self.elements, &self.denied_elements, element)
    }

    // Whether the element is none of forms, unless these may stand in the output.
    fn admits(&self, element: Element) -> bool
        ensures { result ≡ (self.now.forms || not (is_among of_forms element)) }
    {
        self.forms || !is_of_forms(element)
    }

    /// The document type that the output follows.
    pub fn doctype(&self) -> Doctype
        ensures { result ≡ self.now.doctype }
    {
        self.doctype
    }

    /// Whether the attribute may stand on the element: the doctype declares it there, and the element needs it, or an item
    /// of the text's list, if there is one, covers it and none that is denied. `lang` and `xml:lang` stand for each other
    /// in an item, and an `id` also needs `ids`.
    pub fn permits_attr(&self, element: Element, attr: Attr) -> bool
        ensures { result ≡ permits_attribute self.now element attr }
    {
        let declared = has_attr(attributes(self.doctype, element), attr);
        let wanted = self.lists_attr(element, attr) || has_attr(required(element), attr);
        declared && wanted && (attr != Attr::Id || self.ids)
    }

    // Whether an item covers the attribute on the element, where there is a list, and none that is denied.
    fn lists_attr(&self, element: Element, attr: Attr) -> bool
        ensures { result ≡ is_listed self.now.attributes self.now.denied_attributes (covers element attr) }
    {
        let denied = has_cover(&self.denied_attributes, element, attr);
        match &self.attributes {
            Some(items) => has_cover(items, element, attr) && !denied,
            None => !denied,
        }
    }

    /// Whether the property may stand in a style: the text's list, if there is one, has it, and it isn't denied.
    pub fn permits_prop(&self, property: StyleProp) -> bool
        ensures { result ≡ permits_property self.now property }
    {
        lists(&self.properties, &self.denied_properties, property)
    }

    /// Whether a URI may have the scheme: the text's list, if there is one, has it, and it isn't denied.
    pub fn permits_scheme(&self, scheme: SchemeName) -> bool
        ensures { result ≡ permits_a_scheme self.now scheme }
    {
        lists(&self.schemes, &self.denied_schemes, scheme)
    }

    /// What may stand directly in the fragment: what a `div` holds, or what a `span` holds.
    pub fn parent(&self) -> Content
        ensures value { result ≡ self.now.parent }
        ensures kind { IsTrue (is_for_fragments self.now.parent) }
    {
        self.parent
    }

    /// Whether elements may have an `id`.
    pub fn ids(&self) -> bool
        ensures { result ≡ self.now.ids }
    {
        self.ids
    }

    /// What stands in front of each `id`: nothing, or an id by itself, of at most 64 bytes.
    pub fn id_prefix(&self) -> &str
        ensures value { result.now ≡ self.now.id_prefix }
        ensures form { IsTrue (is_id_prefix self.now.id_prefix) }
    {
        match &self.id_prefix {
            Some(prefix) => prefix.as_str(),
            None => "",
        }
    }

    /// Whether the filter makes links of the URIs in texts.
    pub fn linkify(&self) -> bool
        ensures { result ≡ self.now.linkify }
    {
        self.linkify
    }

    /// Whether the filter makes paragraphs of texts.
    pub fn auto_paragraph(&self) -> bool
        ensures { result ≡ self.now.auto_paragraph }
    {
        self.auto_paragraph
    }

    /// Whether tags of elements that may not stand in the output are written as text.
    pub fn escapes_foreign(&self) -> bool
        ensures { result ≡ self.now.escapes_foreign }
    {
        self.escapes_foreign
    }

    /// Whether the elements of forms may stand in the output: no settings text can say so yet.
    pub fn forms(&self) -> bool
        ensures value { result ≡ self.now.forms }
        ensures none { self.now.forms ≡ false }
    {
        self.forms
    }

    /// The hosts to which no URI may lead, themselves and below them: canonical hosts.
    pub fn denied_hosts(&self) -> &[String]
        ensures value { map string_bytes result.now ≡ self.now.denied_hosts }
        ensures form { IsTrue (list_all is_host self.now.denied_hosts) }
    {
        match &self.denied_hosts {
            Some(hosts) => hosts.as_slice(),
            None => &[],
        }
    }

    /// The site's own host, if it is told: a canonical host.
    pub fn host(&self) -> Option<&str>
        ensures value { option_copied result ≡ self.now.host }
        ensures form { IsTrue (is_host_or_none self.now.host) }
    {
        match &self.host {
            Some(host) => Some(host.as_str()),
            None => None,
        }
    }

    /// Whether URIs may lead to other hosts than the site's own, which is told where they may not.
    pub fn external(&self) -> bool
        ensures value { result ≡ self.now.external }
        ensures reach { IsTrue (not (is_in_conflict self.now)) }
    {
        self.external
    }

    // Sets the list of attributes.
    pub(crate) fn set_attributes(&mut self, attributes: Items)
        ensures { self.new ≡ record self.old { attributes = Some attributes } }
    {
        self.attributes = Some(attributes);
    }

    // Sets the items of attributes that are denied.
    pub(crate) fn set_denied_attributes(&mut self, attributes: Items)
        ensures { self.new ≡ record self.old { denied_attributes = attributes } }
    {
        self.denied_attributes = attributes;
    }

    // Sets the elements that are denied.
    pub(crate) fn set_denied_elements(&mut self, elements: Elements)
        ensures { self.new ≡ record self.old { denied_elements = elements } }
    {
        self.denied_elements = elements;
    }

    // Sets the hosts to which no URI may lead.
    pub(crate) fn set_denied_hosts(&mut self, hosts: Vec<String>)
        requires { IsTrue (list_all is_host (map string_bytes hosts.items)) }
        ensures { self.new ≡ record self.old { denied_hosts = map string_bytes hosts.items } }
    {
        self.denied_hosts = Some(hosts);
    }

    // Sets the properties that are denied.
    pub(crate) fn set_denied_properties(&mut self, properties: Properties)
        ensures { self.new ≡ record self.old { denied_properties = properties } }
    {
        self.denied_properties = properties;
    }

    // Sets the schemes that are denied.
    pub(crate) fn set_denied_schemes(&mut self, schemes: Schemes)
        ensures { self.new ≡ record self.old { denied_schemes = schemes } }
    {
        self.denied_schemes = schemes;
    }

    // Sets the doctype.
    pub(crate) fn set_doctype(&mut self, doctype: Doctype)
        ensures { self.new ≡ record self.old { doctype = doctype } }
    {
        self.doctype = doctype;
    }

    // Sets the list of elements.
    pub(crate) fn set_elements(&mut self, elements: Elements)
        ensures { self.new ≡ record self.old { elements = Some elements } }
    {
        self.elements = Some(elements);
    }

    // Sets whether URIs may lead to other hosts than the site's own, which is told where they may not.
    pub(crate) fn set_external(&mut self, external: bool)
        requires { IsTrue (external || is_some self.old.host) }
        ensures { self.new ≡ record self.old { external = external } }
    {
        self.external = external;
    }

    // Sets the site's own host.
    pub(crate) fn set_host(&mut self, host: String)
        requires { IsTrue (is_host (string_bytes host)) }
        ensures { self.new ≡ record self.old { host = Some (string_bytes host) } }
    {
        self.host = Some(host);
    }

    // Sets what stands in front of ids.
    pub(crate) fn set_id_prefix(&mut self, prefix: String)
        requires { IsTrue (is_id_prefix (string_bytes prefix)) }
        ensures { self.new ≡ record self.old { id_prefix = string_bytes prefix } }
    {
        self.id_prefix = Some(prefix);
    }

    // Sets whether blank lines make paragraphs.
    pub(crate) fn set_auto_paragraph(&mut self, wanted: bool)
        ensures { self.new ≡ record self.old { auto_paragraph = wanted } }
    {
        self.auto_paragraph = wanted;
    }

    // Sets whether addresses become links.
    pub(crate) fn set_linkify(&mut self, wanted: bool)
        ensures { self.new ≡ record self.old { linkify = wanted } }
    {
        self.linkify = wanted;
    }

    // Sets whether elements may have an `id`.
    pub(crate) fn set_ids(&mut self, ids: bool)
        ensures { self.new ≡ record self.old { ids = ids } }
    {
        self.ids = ids;
    }

    // Sets what the fragment may hold.
    pub(crate) fn set_parent(&mut self, parent: Content)
        requires { IsTrue (is_for_fragments parent) }
        ensures { self.new ≡ record self.old { parent = parent } }
    {
        self.parent = parent;
    }

    // Sets the list of properties.
    pub(crate) fn set_properties(&mut self, properties: Properties)
        ensures { self.new ≡ record self.old { properties = Some properties } }
    {
        self.properties = Some(properties);
    }

    // Sets the list of schemes.
    pub(crate) fn set_schemes(&mut self, schemes: Schemes)
        ensures { self.new ≡ record self.old { schemes = Some schemes } }
    {
        self.schemes = Some(schemes);
    }
}

// Whether one is listed, where there is a list, and not denied.
fn lists<S: Sort, const N: usize>(
    listed: &Option<NameSet<S, N>>,
    denied: &NameSet<S, N>,
    one: S,
) -> bool
    ensures { result ≡ is_listed listed.now denied.now (same S.rank one) }
{
    match listed {
        Some(set) => set.contains(one) && !denied.contains(one),
        None => !denied.contains(one),
    }
}

// Whether an item covers the attribute on the element: it names it, or the attribute is `lang` or `xml:lang` and it names
// one of the two.
fn has_cover(items: &Items, element: Element, attr: Attr) -> bool
    ensures { result ≡ list_any (covers element attr) items.now }
{
    has_name(items, element, attr)
        || is_lang(attr)
            && (has_name(items, element, Attr::Lang) || has_name(items, element, Attr::XmlLang))
}

// Whether an item names the attribute, everywhere or on the element.
fn has_name(items: &Items, element: Element, attr: Attr) -> bool
    ensures { result ≡ list_any (is_named element attr) items.now }
{
    items.contains(Item::Everywhere(attr)) || items.contains(Item::On(element, attr))
}

// Whether the attribute is `lang` or `xml:lang`.
fn is_lang(attr: Attr) -> bool
    ensures { result ≡ is_language attr }
{
    matches!(attr, Attr::Lang | Attr::XmlLang)
}
