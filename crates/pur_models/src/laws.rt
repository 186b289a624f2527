//! Laws of the words of the content kinds, each the contract of a function that does nothing.

ghost use Rattle.pur_models.specs.Laws.{WordsAreOfAllowedLetters, AllowedLettersStandInWords, AnyLettersAreAWord, SomeLettersAreAWord, EmptyWordIsOfFewKinds, NothingIsEmpty, TableWordsAreItsParts, FieldsetWordsAreItsParts, WordsAreDecided};

/// Each letter of a word of a kind is one that `children` and `text_allowed` allow there.
pub fn words_are_of_allowed_letters()
    ensures { WordsAreOfAllowedLetters }
{}

/// Each letter that `children` and `text_allowed` allow in a kind stands in some word of it.
pub fn allowed_letters_stand_in_words()
    ensures { AllowedLettersStandInWords }
{}

/// Where a kind takes any number of its letters, each list of allowed letters is a word of it.
pub fn any_letters_are_a_word()
    ensures { AnyLettersAreAWord }
{}

/// Where a kind takes one or more of its letters, each list of allowed letters but the empty one is a word of it.
pub fn some_letters_are_a_word()
    ensures { SomeLettersAreAWord }
{}

/// The empty word is one of the kinds that take any number of letters, of what a `fieldset` holds, and of the kind that
/// takes no letter.
pub fn empty_word_is_of_few_kinds()
    ensures { EmptyWordIsOfFewKinds }
{}

/// An element declared EMPTY has the empty word alone.
pub fn nothing_is_empty()
    ensures { NothingIsEmpty }
{}

/// A word of a table is a caption, columns of one kind, a head, a foot and bodies of one kind, in this order.
pub fn table_words_are_its_parts()
    ensures { TableWordsAreItsParts }
{}

/// A word of a fieldset is a legend or none, and behind it a word of flow content.
pub fn fieldset_words_are_its_parts()
    ensures { FieldsetWordsAreItsParts }
{}

/// A word is one of a kind exactly where taking the longest run for each step uses it up.
pub fn words_are_decided()
    ensures { WordsAreDecided }
{}
