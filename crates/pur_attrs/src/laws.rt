//! Laws of valid attributes, each the contract of a function that does nothing.

ghost use Rattle.pur_modules.specs.declared.kinds.Content.{Content};
ghost use Rattle.pur_modules.specs.declared.kinds.Doctype.{Doctype};
ghost use Rattle.pur_settings.specs.Rules.{Rules};
ghost use Rattle.pur_tree.specs.Nodes.{Nodes};
ghost use Rattle.pur_uripolicy.specs.HostRules.{PlainHostRule};
ghost use Rattle.pur_attrs.specs.Laws.{GivesValidAttributes, GivesSpellable, KeepsDistinct, LeavesValid, KeepsNodes, KeepsFree, KeepsPermitted, KeepsForests, KeepsWords, KeepsCounts};
ghost use Rattle.pur_attrs.specs.Rows.{LeavesOutTheSecondId, PutsThePrefix, PutsThePrefixOnce, PutsThePrefixFirst, GoesInDocumentOrder, KeepsNoIdUnlessIdsAreOn, MakesANameAnId, DropsANameBesideAnId, DropsANameBesideAnUnreadId, DropsOtherNames, TellsBothLanguages, TellsTheLanguageOfXml, TellsTheLanguageAtTheEnd, PutsADirection, KeepsADirection, PutsAnAction, KeepsAnAction, PutsASize, PutsRowsAndColumns, PutsALabel, PutsNothingElse, KeepsWhatIsRequired, KeepsWhatIsListed, ReadsValues, ReadsClasses, StylesWhatStrictLacks, StylesWhatIsBehind, StylesText, PutsStylesInFront, StylesNothingInTransitional, ReadsStylesAndLinks, DropsScripts, ReadsLinks, NamesPictures, NamesPicturesByTheLastSegment, DropsDeniedHosts, KeepsOtherHosts};

use pur_cssprops::{styles_are_allowed, styles_are_read_as_themselves};
use pur_uri::text_is_canonical;
use pur_uripolicy::{uris_are_allowed, uris_are_read_again};
use pur_values::{canonical_is_read_as_itself, values_are_allowed};

/// What comes out is valid in its attributes.
pub fn gives_valid_attributes()
    ensures { GivesValidAttributes }
{
    canonical_is_read_as_itself();
    values_are_allowed();
    uris_are_read_again();
    uris_are_allowed();
    text_is_canonical();
    styles_are_read_as_themselves();
    styles_are_allowed();
}

/// What comes out may be spelled.
pub fn gives_spellable()
    ensures { GivesSpellable }
{
    canonical_is_read_as_itself();
    values_are_allowed();
    uris_are_read_again();
    uris_are_allowed();
    text_is_canonical();
    styles_are_read_as_themselves();
    styles_are_allowed();
}

/// No two attributes of an element have one name, where none had.
pub fn keeps_distinct()
    ensures { KeepsDistinct }
{}

/// Nodes with valid attributes stay as they are.
pub fn leaves_valid()
    ensures { LeavesValid }
{}

/// Attributes aside, all stays as it was.
pub fn keeps_nodes()
    ensures { KeepsNodes }
{}

/// No element comes to stand in one that excludes it.
pub fn keeps_free()
    ensures { KeepsFree }
{}

/// All elements stay permitted.
pub fn keeps_permitted()
    ensures { KeepsPermitted }
{}

/// A forest stays one, and texts that weren't neighbours aren't.
pub fn keeps_forests()
    ensures { (rules : Rules) (rule : PlainHostRule) (nodes : Nodes) → KeepsForests rules rule nodes }
{}

/// A word stays one, and so do the children of each element.
pub fn keeps_words()
    ensures { (doctype : Doctype) (content : Content) (rules : Rules) (rule : PlainHostRule) (nodes : Nodes) → KeepsWords doctype content rules rule nodes }
{}

/// Each character stands as often as before.
pub fn keeps_counts()
    ensures { KeepsCounts }
{}

/// Worked examples of the definition.
pub fn worked_examples()
    ensures second_id { LeavesOutTheSecondId }
    ensures prefix { PutsThePrefix }
    ensures prefix_once { PutsThePrefixOnce }
    ensures prefix_first { PutsThePrefixFirst }
    ensures order { GoesInDocumentOrder }
    ensures ids_off { KeepsNoIdUnlessIdsAreOn }
    ensures name { MakesANameAnId }
    ensures name_beside_id { DropsANameBesideAnId }
    ensures name_beside_unread { DropsANameBesideAnUnreadId }
    ensures other_name { DropsOtherNames }
    ensures languages { TellsBothLanguages }
    ensures language_of_xml { TellsTheLanguageOfXml }
    ensures language_behind { TellsTheLanguageAtTheEnd }
    ensures direction { PutsADirection }
    ensures own_direction { KeepsADirection }
    ensures action { PutsAnAction }
    ensures own_action { KeepsAnAction }
    ensures size { PutsASize }
    ensures rows_and_columns { PutsRowsAndColumns }
    ensures label { PutsALabel }
    ensures nothing_else { PutsNothingElse }
    ensures required { KeepsWhatIsRequired }
    ensures listed { KeepsWhatIsListed }
    ensures values { ReadsValues }
    ensures classes { ReadsClasses }
    ensures strict { StylesWhatStrictLacks }
    ensures behind { StylesWhatIsBehind }
    ensures styled { StylesText }
    ensures styled_in_front { PutsStylesInFront }
    ensures transitional { StylesNothingInTransitional }
    ensures styles_and_links { ReadsStylesAndLinks }
    ensures scripts { DropsScripts }
    ensures links { ReadsLinks }
    ensures pictures { NamesPictures }
    ensures last_segment { NamesPicturesByTheLastSegment }
    ensures denied { DropsDeniedHosts }
    ensures other_hosts { KeepsOtherHosts }
{}
