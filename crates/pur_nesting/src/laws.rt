//! Laws of nesting repair, each the contract of a function that does nothing.

ghost use Rattle.pur_nesting.specs.Laws.{KeepsForests, KeepsLetters, KeepsFree, KeepsPermitted, KeepsPictures, KeepsDistinct, KeepsAllowed, KeepsCounts, NeverMore, GivesWords, GivesAllWords, GivesAWord, JoinsTexts, WordsAreLetters, LeavesSettled, IsSettling, ValidAreSettled, RepairsOnce};
ghost use Rattle.pur_nesting.specs.Rows.{DropsAnEmptyList, KeepsADefinition, JoinsNeighbours, PutsTheCaptionFirst, MakesAParagraph, LosesACaption, DropsABlankTable, PutsBodiesLast, MakesTheHeadABody, TakesTheRowsOfTheHead, MakesTheFootABody, PutsTheFootBeforeBodies, DropsAnEmptyTable, DropsRowsWithoutCells, KeepsAttributesOfAHead, TakesTheRowsOfAFoot, PutsRunsIntoBodies};

/// Letters stay letters of their parent's content.
pub fn keeps_letters()
    ensures { KeepsLetters }
{}

/// Repair lets no element into one that excludes it.
pub fn keeps_free()
    ensures { KeepsFree }
{}

/// No element comes in that isn't permitted.
pub fn keeps_permitted()
    ensures { KeepsPermitted }
{}

/// No picture comes in, and pictures keep their attributes.
pub fn keeps_pictures()
    ensures { KeepsPictures }
{}

/// No two attributes of an element have one name, where none had.
pub fn keeps_distinct()
    ensures { KeepsDistinct }
{}

/// Texts and values of allowed characters stay so.
pub fn keeps_allowed()
    ensures { KeepsAllowed }
{}

/// Each character that isn't white space stands after repair or is lost with a caption.
pub fn keeps_counts()
    ensures { KeepsCounts }
{}

/// No character, white space too, stands more often after repair than before.
pub fn never_more()
    ensures { NeverMore }
{}

/// After repair the children of each element are a word of what it holds, but for what a `select`, an `optgroup` and a
/// `fieldset` hold.
pub fn gives_words()
    ensures { GivesWords }
{}

/// After repair the children of each element are a word of what it holds, where all elements are permitted and none of
/// forms is.
pub fn gives_all_words()
    ensures { GivesAllWords }
{}

/// After repair the nodes themselves are a word, where their parent takes any number of its letters, as a fragment
/// does.
pub fn gives_a_word()
    ensures { GivesAWord }
{}

/// After repair no texts are neighbours.
pub fn joins_texts()
    ensures { JoinsTexts }
{}

/// Nodes whose words are all in their languages are letters of their parents' contents, or white space.
pub fn words_are_letters()
    ensures { WordsAreLetters }
{}

/// Settled nodes stay as they are.
pub fn leaves_settled()
    ensures { LeavesSettled }
{}

/// What repair leaves is settled.
pub fn is_settling()
    ensures { IsSettling }
{}

/// Nodes whose words are all in their languages, and in which no texts are neighbours, are settled.
pub fn valid_are_settled()
    ensures { ValidAreSettled }
{}

/// What repair leaves it leaves as it is.
pub fn repairs_once()
    ensures { RepairsOnce }
{}

/// A forest stays one: no level comes to pass the limit, no text becomes empty, and EMPTY elements stay without children.
pub fn keeps_forests()
    ensures { KeepsForests }
{}

/// Worked examples of the definition.
pub fn worked_examples()
    ensures empty_list { DropsAnEmptyList }
    ensures definition { KeepsADefinition }
    ensures neighbours { JoinsNeighbours }
    ensures caption { PutsTheCaptionFirst }
    ensures paragraph { MakesAParagraph }
    ensures lost_caption { LosesACaption }
    ensures blank_table { DropsABlankTable }
    ensures bodies { PutsBodiesLast }
    ensures head { MakesTheHeadABody }
    ensures head_rows { TakesTheRowsOfTheHead }
    ensures foot { MakesTheFootABody }
    ensures foot_first { PutsTheFootBeforeBodies }
    ensures empty_table { DropsAnEmptyTable }
    ensures empty_rows { DropsRowsWithoutCells }
    ensures attributes { KeepsAttributesOfAHead }
    ensures foot_rows { TakesTheRowsOfAFoot }
    ensures runs { PutsRunsIntoBodies }
{}
