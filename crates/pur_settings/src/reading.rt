//! Reading settings out of a TOML table, key by key.

ghost use Rattle.std.specs.Prelude.{◌≡◌, ◌≢◌, true, Some, Ok, Err, IfOk, IfErr, OnOk, IsTrue, length, map, string_bytes};
ghost use Rattle.std.specs.List.{list_all};
ghost use Rattle.std.specs.Option.{ok_or};
ghost use Rattle.toml.specs.Data.{as_str, as_array};
ghost use Rattle.toml.specs.View.{view, array_view, table_view};
ghost use Rattle.pur_text.specs.Hosts.{is_host};
ghost use Rattle.pur_names.specs.Elements.{all_elements, element_rank};
ghost use Rattle.pur_names.specs.Properties.{all_props, prop_named, prop_rank};
ghost use Rattle.pur_names.specs.Schemes.{all_schemes, scheme_named, scheme_rank};
ghost use Rattle.pur_modules.specs.declared.kinds.Doctype.TheVariants.{Transitional};
ghost use Rattle.pur_settings.specs.Items.{all_items, item_of, item_rank};
ghost use Rattle.pur_settings.specs.Prefixes.{is_id_prefix};
ghost use Rattle.pur_settings.specs.Private.Walk.{Ascends, with_all, with_member, with_members};
ghost use Rattle.pur_settings.specs.Reading.{and_then, reading_map, truth_in, text_in, list_in, number_in};
ghost use Rattle.pur_settings.specs.Rules.{is_for_fragments};
ghost use Rattle.pur_settings.specs.Sets.{each_once};
ghost use Rattle.pur_settings.specs.Settings.{doctype_in, edition_in, settings_in, unless_conflict, version_by, version_in};
ghost use Rattle.pur_settings.specs.Table.{content_in_parent, doctype_named, element_of, host_named, in_two, is_version, prefix_named, table_for};

use crate::editions::{Edition, Version};
use crate::faults::SettingsFault;
use crate::name_set::{NameSet, Sort};
use crate::prefixes::is_id_prefix;
use crate::site_settings::Settings;
use pur_modules::{Content, Doctype};
use pur_text::is_host;
use std::alloc::Global;
use toml::{Table, Value};

// The settings that a table gives.
pub(crate) fn read_table(alloc: Global, table: &Table) -> Result<Settings, SettingsFault>
    ensures ok { IfOk result (λ settings. settings_in (table_view table.now) ≡ Ok settings) }
    ensures err { IfErr result (λ fault. fault ≢ SettingsFault.Memory → settings_in (table_view table.now) ≡ Err fault) }
    ensures ordered { Ascends (table_view table.now) }
{
    let edition = find_edition(table);
    read_members(alloc, table, edition)
}

// The settings with the value of each member. What the value of one key depends on beside itself was looked up before.
fn read_members(alloc: Global, table: &Table, edition: Edition) -> Result<Settings, SettingsFault>
    ensures ok { IfOk result (λ settings. with_all (table_for edition) (table_view table.now) ≡ Ok settings) }
    ensures err { IfErr result (λ fault. fault ≢ SettingsFault.Memory → with_all (table_for edition) (table_view table.now) ≡ Err fault) }
    ensures ordered { Ascends (table_view table.now) }
{
    let mut settings = Settings::defaults();
    put_members(alloc, &mut settings, table, edition)?;
    Ok(settings)
}

// Puts in the value of each member, one after another in the order of their keys' bytes, which is the table's own. That
// other hosts may not be reached is kept aside until the site's own is known.
fn put_members(
    alloc: Global,
    settings: &mut Settings,
    table: &Table,
    edition: Edition,
) -> Result<(), SettingsFault>
    ensures ok { OnOk result (and_then (with_members (table_for edition) (table_view table.now) (record settings.old { external = true })) unless_conflict ≡ Ok settings.new) }
    ensures err { IfErr result (λ fault. fault ≢ SettingsFault.Memory →
        and_then (with_members (table_for edition) (table_view table.now) (record settings.old { external = true })) unless_conflict ≡ Err fault) }
    ensures ordered { Ascends (table_view table.now) }
{
    let mut external = true;
    for (name, value) in table.iter() {
        read_member(
            alloc,
            settings,
            &mut external,
            edition,
            name.as_str(),
            value,
        )?;
    }
    settle(settings, external)
}

// Puts in whether other hosts may be reached; where they may not, the site's own must be there.
fn settle(settings: &mut Settings, external: bool) -> Result<(), SettingsFault>
    ensures { reading_map (λ _. settings.new) result ≡ unless_conflict (record settings.old { external = external }) }
{
    if !external && settings.host().is_none() {
        return Err(SettingsFault::Conflict);
    }
    settings.set_external(external);
    Ok(())
}

// What of a table chooses its keys and names.
fn find_edition(table: &Table) -> Edition
    ensures { result ≡ edition_in (table_view table.now) }
{
    Edition {
        version: find_version(table),
        doctype: find_doctype(table),
    }
}

// The version that a table is written for: 2 where it says so, and else 1.
fn find_version(table: &Table) -> Version
    ensures { result ≡ version_in (table_view table.now) }
{
    match table.get("version") {
        Some(value) => version_of(value),
        None => Version::One,
    }
}

// The version that a value tells.
fn version_of(value: &Value) -> Version
    ensures { result ≡ version_by (Some (view value.now)) }
{
    match value.as_integer() {
        Some(number) if number == 2 => Version::Two,
        _ => Version::One,
    }
}

// The doctype that a table names; the default where it names none.
fn find_doctype(table: &Table) -> Doctype
    ensures { result ≡ doctype_in (table_view table.now) }
{
    match table.get("doctype") {
        Some(value) => read_doctype(value).unwrap_or(Doctype::Transitional),
        None => Doctype::Transitional,
    }
}

// Puts the value of the key of this name into the settings, or whether other hosts may be reached beside them.
fn read_member(
    alloc: Global,
    settings: &mut Settings,
    external: &mut bool,
    edition: Edition,
    name: &str,
    value: &Value,
) -> Result<(), SettingsFault>
    ensures ok { OnOk result (with_member (table_for edition) (record settings.old { external = external.old }) name.now (view value.now)
        ≡ Ok (record settings.new { external = external.new })) }
    ensures err { IfErr result (λ fault. fault ≢ SettingsFault.Memory →
        with_member (table_for edition) (record settings.old { external = external.old }) name.now (view value.now) ≡ Err fault) }
{
    match name {
        "attributes" => put_attributes(settings, edition, value),
        "auto_paragraph" => put_auto_paragraph(settings, value),
        "denied_attributes" => put_denied_attributes(settings, edition, value),
        "denied_elements" => put_denied_elements(settings, edition, value),
        "denied_hosts" => put_denied_hosts(alloc, settings, value),
        "denied_properties" => put_denied_properties(settings, edition, value),
        "denied_schemes" => put_denied_schemes(settings, edition, value),
        "doctype" => put_doctype(settings, value),
        "elements" => put_elements(settings, edition, value),
        "external" => put_external(external, value),
        "host" => put_host(alloc, settings, value),
        "id_prefix" => put_id_prefix(alloc, settings, value),
        "ids" => put_ids(settings, value),
        "linkify" => put_linkify(settings, value),
        "parent" => put_parent(settings, value),
        "properties" => put_properties(settings, edition, value),
        "schemes" => put_schemes(settings, edition, value),
        "version" => read_version(value),
        _ => Err(SettingsFault::UnknownKey),
    }
}

// Puts in the items of attributes that a list names.
#[tactic(auto, using(crate::proofs::ItemLemmas::items_counted))]
fn put_attributes(
    settings: &mut Settings,
    edition: Edition,
    value: &Value,
) -> Result<(), SettingsFault>
    ensures { reading_map (λ _. settings.new) result
        ≡ reading_map (λ names. record settings.old { attributes = Some (each_once item_rank all_items names) }) (list_in (item_of edition.version) (view value.now)) }
{
    settings.set_attributes(read_set(edition, value)?);
    Ok(())
}

// Puts in whether blank lines make paragraphs.
fn put_auto_paragraph(settings: &mut Settings, value: &Value) -> Result<(), SettingsFault>
    ensures { reading_map (λ _. settings.new) result
        ≡ reading_map (λ wanted. record settings.old { auto_paragraph = wanted }) (truth_in (view value.now)) }
{
    settings.set_auto_paragraph(read_truth(value)?);
    Ok(())
}

// Puts in the items of attributes that a list denies, in version 2.
#[tactic(auto, using(crate::proofs::ItemLemmas::items_counted))]
fn put_denied_attributes(
    settings: &mut Settings,
    edition: Edition,
    value: &Value,
) -> Result<(), SettingsFault>
    ensures { reading_map (λ _. settings.new) result
        ≡ reading_map (λ names. record settings.old { denied_attributes = each_once item_rank all_items names }) (in_two edition.version (list_in (item_of edition.version) (view value.now))) }
{
    since_two(edition)?;
    settings.set_denied_attributes(read_set(edition, value)?);
    Ok(())
}

// Puts in the elements of Transitional that a list denies, in version 2.
fn put_denied_elements(
    settings: &mut Settings,
    edition: Edition,
    value: &Value,
) -> Result<(), SettingsFault>
    ensures { reading_map (λ _. settings.new) result
        ≡ reading_map (λ names. record settings.old { denied_elements = each_once element_rank all_elements names }) (in_two edition.version (list_in (element_of Transitional) (view value.now))) }
{
    since_two(edition)?;
    settings.set_denied_elements(read_set(in_transitional(edition), value)?);
    Ok(())
}

// Puts in the hosts that a list names, to which no URI may lead.
fn put_denied_hosts(
    alloc: Global,
    settings: &mut Settings,
    value: &Value,
) -> Result<(), SettingsFault>
    ensures ok { OnOk result (reading_map (λ hosts. record settings.old { denied_hosts = hosts }) (list_in host_named (view value.now)) ≡ Ok settings.new) }
    ensures err { IfErr result (λ fault. fault ≢ SettingsFault.Memory → list_in host_named (view value.now) ≡ Err fault) }
{
    settings.set_denied_hosts(read_hosts(alloc, value)?);
    Ok(())
}

// Puts in the properties that a list denies, in version 2.
fn put_denied_properties(
    settings: &mut Settings,
    edition: Edition,
    value: &Value,
) -> Result<(), SettingsFault>
    ensures { reading_map (λ _. settings.new) result
        ≡ reading_map (λ names. record settings.old { denied_properties = each_once prop_rank all_props names }) (in_two edition.version (list_in prop_named (view value.now))) }
{
    since_two(edition)?;
    settings.set_denied_properties(read_set(edition, value)?);
    Ok(())
}

// Puts in the schemes that a list denies, in version 2.
fn put_denied_schemes(
    settings: &mut Settings,
    edition: Edition,
    value: &Value,
) -> Result<(), SettingsFault>
    ensures { reading_map (λ _. settings.new) result
        ≡ reading_map (λ names. record settings.old { denied_schemes = each_once scheme_rank all_schemes names }) (in_two edition.version (list_in scheme_named (view value.now))) }
{
    since_two(edition)?;
    settings.set_denied_schemes(read_set(edition, value)?);
    Ok(())
}

// Puts in the doctype that a value names.
fn put_doctype(settings: &mut Settings, value: &Value) -> Result<(), SettingsFault>
    ensures { reading_map (λ _. settings.new) result
        ≡ reading_map (λ doctype. record settings.old { doctype = doctype }) (text_in doctype_named (view value.now)) }
{
    settings.set_doctype(read_doctype(value)?);
    Ok(())
}

// Puts in the elements of the doctype that a list names.
fn put_elements(
    settings: &mut Settings,
    edition: Edition,
    value: &Value,
) -> Result<(), SettingsFault>
    ensures { reading_map (λ _. settings.new) result
        ≡ reading_map (λ names. record settings.old { elements = Some (each_once element_rank all_elements names) }) (list_in (element_of edition.doctype) (view value.now)) }
{
    settings.set_elements(read_set(edition, value)?);
    Ok(())
}

// Puts in whether URIs may lead to other hosts than the site's own.
fn put_external(external: &mut bool, value: &Value) -> Result<(), SettingsFault>
    ensures { reading_map (λ _. external.new) result ≡ truth_in (view value.now) }
{
    *external = read_truth(value)?;
    Ok(())
}

// Puts in the site's own host, which a value names.
fn put_host(alloc: Global, settings: &mut Settings, value: &Value) -> Result<(), SettingsFault>
    ensures ok { OnOk result (reading_map (λ host. record settings.old { host = Some host }) (text_in host_named (view value.now)) ≡ Ok settings.new) }
    ensures err { IfErr result (λ fault. fault ≢ SettingsFault.Memory → text_in host_named (view value.now) ≡ Err fault) }
{
    settings.set_host(read_host(alloc, value)?);
    Ok(())
}

// Puts in what stands in front of ids.
fn put_id_prefix(alloc: Global, settings: &mut Settings, value: &Value) -> Result<(), SettingsFault>
    ensures ok { OnOk result (reading_map (λ prefix. record settings.old { id_prefix = prefix }) (text_in prefix_named (view value.now)) ≡ Ok settings.new) }
    ensures err { IfErr result (λ fault. fault ≢ SettingsFault.Memory → text_in prefix_named (view value.now) ≡ Err fault) }
{
    settings.set_id_prefix(read_prefix(alloc, value)?);
    Ok(())
}

// Puts in whether elements may have an `id`.
fn put_ids(settings: &mut Settings, value: &Value) -> Result<(), SettingsFault>
    ensures { reading_map (λ _. settings.new) result ≡ reading_map (λ ids. record settings.old { ids = ids }) (truth_in (view value.now)) }
{
    settings.set_ids(read_truth(value)?);
    Ok(())
}

// Puts in whether addresses become links.
fn put_linkify(settings: &mut Settings, value: &Value) -> Result<(), SettingsFault>
    ensures { reading_map (λ _. settings.new) result ≡ reading_map (λ wanted. record settings.old { linkify = wanted }) (truth_in (view value.now)) }
{
    settings.set_linkify(read_truth(value)?);
    Ok(())
}

// Puts in what the fragment may hold, by the parent that a value names.
fn put_parent(settings: &mut Settings, value: &Value) -> Result<(), SettingsFault>
    ensures { reading_map (λ _. settings.new) result
        ≡ reading_map (λ content. record settings.old { parent = content }) (text_in content_in_parent (view value.now)) }
{
    settings.set_parent(read_parent(value)?);
    Ok(())
}

// Puts in the properties that a list names.
fn put_properties(
    settings: &mut Settings,
    edition: Edition,
    value: &Value,
) -> Result<(), SettingsFault>
    ensures { reading_map (λ _. settings.new) result
        ≡ reading_map (λ names. record settings.old { properties = Some (each_once prop_rank all_props names) }) (list_in prop_named (view value.now)) }
{
    settings.set_properties(read_set(edition, value)?);
    Ok(())
}

// Puts in the schemes that a list names.
fn put_schemes(
    settings: &mut Settings,
    edition: Edition,
    value: &Value,
) -> Result<(), SettingsFault>
    ensures { reading_map (λ _. settings.new) result
        ≡ reading_map (λ names. record settings.old { schemes = Some (each_once scheme_rank all_schemes names) }) (list_in scheme_named (view value.now)) }
{
    settings.set_schemes(read_set(edition, value)?);
    Ok(())
}

// Nothing, in version 2; in version 1 the key of this version isn't known.
fn since_two(edition: Edition) -> Result<(), SettingsFault>
    ensures { result ≡ in_two edition.version (Ok tt) }
{
    match edition.version {
        Version::One => Err(SettingsFault::UnknownKey),
        Version::Two => Ok(()),
    }
}

// The edition with all elements that there are.
fn in_transitional(edition: Edition) -> Edition
    ensures { result ≡ record edition { doctype = Transitional } }
{
    Edition {
        doctype: Doctype::Transitional,
        ..edition
    }
}

// The set of what a list names.
fn read_set<S: Sort, const N: usize>(
    edition: Edition,
    value: &Value,
) -> Result<NameSet<S, N>, SettingsFault>
    requires { length S.all ≡ N }
    ensures { result ≡ reading_map (each_once S.rank S.all) (list_in (S.named edition) (view value.now)) }
{
    let mut set = NameSet::new();
    for item in read_items(value)? {
        let name = read_name(edition, item)?;
        set.insert(name);
    }
    Ok(set)
}

// What a value names.
fn read_name<S: Sort>(edition: Edition, value: &Value) -> Result<S, SettingsFault>
    ensures { result ≡ text_in (S.named edition) (view value.now) }
{
    S::find(edition, read_text(value)?).ok_or(SettingsFault::UnknownName)
}

// The doctype that a value names.
fn read_doctype(value: &Value) -> Result<Doctype, SettingsFault>
    ensures { result ≡ text_in doctype_named (view value.now) }
{
    match read_text(value)? {
        "strict" => Ok(Doctype::Strict),
        "transitional" => Ok(Doctype::Transitional),
        _ => Err(SettingsFault::UnknownName),
    }
}

// What the fragment may hold in the parent that a value names.
fn read_parent(value: &Value) -> Result<Content, SettingsFault>
    ensures value { result ≡ text_in content_in_parent (view value.now) }
    ensures kind { IfOk result (λ content. IsTrue (is_for_fragments content)) }
{
    match read_text(value)? {
        "div" => Ok(Content::Flow),
        "span" => Ok(Content::Inline),
        _ => Err(SettingsFault::UnknownName),
    }
}

// The hosts that a list names.
fn read_hosts(alloc: Global, value: &Value) -> Result<Vec<String>, SettingsFault>
    ensures ok { IfOk result (λ hosts. list_in host_named (view value.now) ≡ Ok (map string_bytes hosts.items)) }
    ensures form { IfOk result (λ hosts. IsTrue (list_all is_host (map string_bytes hosts.items))) }
    ensures err { IfErr result (λ fault. fault ≢ SettingsFault.Memory → list_in host_named (view value.now) ≡ Err fault) }
{
    let mut hosts = Vec::new(alloc);
    for item in read_items(value)? {
        let host = read_host(alloc, item)?;
        if hosts.push(host).is_err() {
            return Err(SettingsFault::Memory);
        }
    }
    Ok(hosts)
}

// The host that a value names.
fn read_host(alloc: Global, value: &Value) -> Result<String, SettingsFault>
    ensures ok { IfOk result (λ host. text_in host_named (view value.now) ≡ Ok (string_bytes host)) }
    ensures form { IfOk result (λ host. IsTrue (is_host (string_bytes host))) }
    ensures err { IfErr result (λ fault. fault ≢ SettingsFault.Memory → text_in host_named (view value.now) ≡ Err fault) }
{
    let text = read_text(value)?;
    if is_host(text) {
        copy_of(alloc, text)
    } else {
        Err(SettingsFault::UnknownName)
    }
}

// The text that a value is, where that may stand in front of ids.
fn read_prefix(alloc: Global, value: &Value) -> Result<String, SettingsFault>
    ensures ok { IfOk result (λ prefix. text_in prefix_named (view value.now) ≡ Ok (string_bytes prefix)) }
    ensures form { IfOk result (λ prefix. IsTrue (is_id_prefix (string_bytes prefix))) }
    ensures err { IfErr result (λ fault. fault ≢ SettingsFault.Memory → text_in prefix_named (view value.now) ≡ Err fault) }
{
    let text = read_text(value)?;
    if is_id_prefix(text) {
        copy_of(alloc, text)
    } else {
        Err(SettingsFault::UnknownName)
    }
}

// A copy of a text.
fn copy_of(alloc: Global, text: &str) -> Result<String, SettingsFault>
    ensures ok { IfOk result (λ copy. string_bytes copy ≡ text.now) }
    ensures err { IfErr result (λ fault. fault ≡ SettingsFault.Memory) }
{
    match String::from_str(alloc, text) {
        Ok(copy) => Ok(copy),
        Err(_) => Err(SettingsFault::Memory),
    }
}

// The truth value that a value is.
fn read_truth(value: &Value) -> Result<bool, SettingsFault>
    ensures { result ≡ truth_in (view value.now) }
{
    value.as_bool().ok_or(SettingsFault::WrongKind)
}

// Whether a value is a version that is known; an offence, if not.
fn read_version(value: &Value) -> Result<(), SettingsFault>
    ensures { result ≡ reading_map (λ _. tt) (number_in is_version (view value.now)) }
{
    match value.as_integer() {
        Some(number) if number == 1 || number == 2 => Ok(()),
        Some(_) => Err(SettingsFault::UnknownName),
        None => Err(SettingsFault::WrongKind),
    }
}

// The text that a value is.
fn read_text(value: &Value) -> Result<&str, SettingsFault>
    ensures { reading_map (λ text. text.now) result ≡ ok_or (as_str (view value.now)) SettingsFault.WrongKind }
{
    value.as_str().ok_or(SettingsFault::WrongKind)
}

// The list that a value is.
fn read_items(value: &Value) -> Result<&Vec<Value>, SettingsFault>
    ensures { reading_map (λ items. array_view items.now) result ≡ ok_or (as_array (view value.now)) SettingsFault.WrongKind }
{
    value.as_array().ok_or(SettingsFault::WrongKind)
}
