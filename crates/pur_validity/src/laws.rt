//! Laws of validity, each the contract of a function that does nothing.

ghost use Rattle.pur_validity.specs.Laws.{ValidityIsDecided, AttributesAreDecided};
ghost use Rattle.pur_validity.specs.Rows.{TextInAFragment, BlocksInNoInline, ListsHaveItems, CaptionsComeFirst, TablesHaveBodies, FeetComeBeforeBodies, BodiesAreOfOneKind, CellsStandInRows, RowsHaveCells, LinksStandInNoLink, NothingBigInPre, EditsHoldWhatTheirParentHolds, StrictQuotesHoldBlocks, ElementsArePermitted, FragmentsHaveParents, LevelsEnd};
ghost use Rattle.pur_validity.specs.AttributeRows.{AttributesAreDeclared, AttributesAreListed, ValuesAreReadAsThemselves, RequiredOnesAreThere, LanguagesAreTheSame, IdsNeedTheSetting, IdsHaveThePrefix, IdsAreDistinct, LinksAreCanonical, PicturesHaveATextInTheirPlace, SourcesAreFetched, StylesAreCanonical, FormsAreSentToLinks, FieldsOfTextHaveASize};
ghost use Rattle.pur_validity.specs.FormRows.{FormsNeedTheSetting, FormsStandInNoForm, LabelsStandInNoLabel, LinksStandInNoButton, LegendsComeFirst, ChoicesAreOptions, StrictFormsHoldBlocks};

use pur_models::words_are_decided;

/// Nodes are valid exactly where a test that computes finds them so.
pub fn validity_is_decided()
    ensures { ValidityIsDecided }
{
    words_are_decided();
}

/// Worked examples of validity: what the filter writes, and a neighbour that one rule refuses.
pub fn worked_examples()
    ensures text { TextInAFragment }
    ensures blocks { BlocksInNoInline }
    ensures items { ListsHaveItems }
    ensures captions { CaptionsComeFirst }
    ensures bodies { TablesHaveBodies }
    ensures feet { FeetComeBeforeBodies }
    ensures one_kind { BodiesAreOfOneKind }
    ensures cells { CellsStandInRows }
    ensures rows { RowsHaveCells }
    ensures links { LinksStandInNoLink }
    ensures pre { NothingBigInPre }
    ensures edits { EditsHoldWhatTheirParentHolds }
    ensures strict { StrictQuotesHoldBlocks }
    ensures permitted { ElementsArePermitted }
    ensures parents { FragmentsHaveParents }
    ensures levels { LevelsEnd }
{}

/// Worked examples of forms, where settings let them through, and neighbours that one rule refuses.
pub fn form_examples()
    ensures setting { FormsNeedTheSetting }
    ensures forms { FormsStandInNoForm }
    ensures labels { LabelsStandInNoLabel }
    ensures buttons { LinksStandInNoButton }
    ensures legends { LegendsComeFirst }
    ensures choices { ChoicesAreOptions }
    ensures strict { StrictFormsHoldBlocks }
{}

/// Nodes have valid attributes exactly where a test that computes finds them so.
pub fn attributes_are_decided()
    ensures { AttributesAreDecided }
{}

/// Worked examples of valid attributes, and neighbours that one rule refuses.
pub fn attribute_examples()
    ensures declared { AttributesAreDeclared }
    ensures listed { AttributesAreListed }
    ensures values { ValuesAreReadAsThemselves }
    ensures required { RequiredOnesAreThere }
    ensures languages { LanguagesAreTheSame }
    ensures setting { IdsNeedTheSetting }
    ensures prefix { IdsHaveThePrefix }
    ensures distinct { IdsAreDistinct }
    ensures links { LinksAreCanonical }
    ensures pictures { PicturesHaveATextInTheirPlace }
    ensures sources { SourcesAreFetched }
    ensures styles { StylesAreCanonical }
    ensures actions { FormsAreSentToLinks }
    ensures fields { FieldsOfTextHaveASize }
{}
