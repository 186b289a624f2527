//! Laws of links and of paragraphs, each the contract of a function that does nothing.

ghost use Rattle.pur_inject.specs.Laws.{InjectsNothing, InjectsOnce, Keeps, KeepsWords, LinksAreTested, LinksKeepCounts, LinksOnce, LosesLineFeedsAlone, ParagraphsBringNoLinks, ParagraphsKeepCounts, ParagraphsOnce};
ghost use Rattle.pur_inject.specs.Links.{with_links};
ghost use Rattle.pur_inject.specs.Paragraphs.{with_paragraphs};
ghost use Rattle.pur_inject.specs.Rows.{MakesALink, TakesMarksOff, NeedsABoundary, LooksOnceIntoARun, LeavesOthers, MakesParagraphs, MakesOneParagraph, KeepsBlocksApart};
ghost use Rattle.pur_settings.specs.Rules.{Rules};
ghost use Rattle.pur_tree.specs.Nodes.{Nodes};
ghost use Rattle.pur_uripolicy.specs.HostRules.{PlainHostRule};

/// Links leave what nodes have: a forest stays one, no texts become neighbours, no element comes into one that excludes it, and
/// none that isn't permitted; characters stay allowed, pictures keep their attributes, and no name comes twice into an element.
pub fn links_keep()
    ensures { (rules : Rules) (rule : PlainHostRule) (nodes : Nodes) → Keeps rules nodes (with_links rules rule nodes) }
{}

/// A word stays one with links, and so do the children of each element.
pub fn links_keep_words()
    ensures { (rules : Rules) (rule : PlainHostRule) (nodes : Nodes) → KeepsWords rules nodes (with_links rules rule nodes) }
{}

/// Each character stands with links as often as before.
pub fn links_keep_counts()
    ensures { LinksKeepCounts }
{}

/// What holds of all elements, and of each link, holds of all elements with links.
pub fn links_are_tested()
    ensures { LinksAreTested }
{}

/// Links are made once.
pub fn links_once()
    ensures { LinksOnce }
{}

/// Paragraphs leave what nodes have, as links do.
pub fn paragraphs_keep()
    ensures { (rules : Rules) (nodes : Nodes) → Keeps rules nodes (with_paragraphs rules nodes) }
{}

/// A word stays one with paragraphs, and so do the children of each element.
pub fn paragraphs_keep_words()
    ensures { (rules : Rules) (nodes : Nodes) → KeepsWords rules nodes (with_paragraphs rules nodes) }
{}

/// Each character stands with paragraphs as often as before, but for those that are taken.
pub fn paragraphs_keep_counts()
    ensures { ParagraphsKeepCounts }
{}

/// Paragraphs take line feeds alone.
pub fn loses_line_feeds_alone()
    ensures { LosesLineFeedsAlone }
{}

/// Paragraphs are made once.
pub fn paragraphs_once()
    ensures { ParagraphsOnce }
{}

/// No link is to be made in the paragraphs of nodes with links.
pub fn paragraphs_bring_no_links()
    ensures { ParagraphsBringNoLinks }
{}

/// Nodes stay as they are where the settings want neither links nor paragraphs.
pub fn injects_nothing()
    ensures { InjectsNothing }
{}

/// What has links and paragraphs stays as it is, whatever its attributes.
pub fn injects_once()
    ensures { InjectsOnce }
{}

/// Worked examples of the definitions.
pub fn worked_examples()
    ensures link { MakesALink }
    ensures marks { TakesMarksOff }
    ensures boundary { NeedsABoundary }
    ensures run { LooksOnceIntoARun }
    ensures others { LeavesOthers }
    ensures paragraphs { MakesParagraphs }
    ensures one { MakesOneParagraph }
    ensures blocks { KeepsBlocksApart }
{}
