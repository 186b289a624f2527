//! Named texts in memory, and the place in the one that was chosen.

ghost use Rattle.std.specs.Prelude.{◌≡◌, ◌+◌, ◌<◌, ◌≤◌, min, [], length, Some, None, option_map, is_some, IfSome, IfNone};
ghost use Rattle.pur_io.specs.Texts.{same_name, text_named, is_named, text_chosen, is_chosen, plain_name, plain_texts, ReadsAt};
ghost use Rattle.pur_io.specs.Shelves.{left_of};

/// Texts by their names, the name chosen last, and the place in its text.
#[derive(Drop)]
pub struct TextList {
    pub texts: Vec<(Option<String>, Vec<u8>)>,
    pub chosen: Option<Option<String>>,
    pub place: usize,
}

impl TextList {
    pub fn new(texts: Vec<(Option<String>, Vec<u8>)>) -> Self
        ensures texts { result.texts ≡ texts }
        ensures chosen { result.chosen ≡ None }
        ensures place { result.place ≡ 0 }
    {
        TextList {
            texts,
            chosen: None,
            place: 0,
        }
    }

    /// Chooses the text of this name from its start, and says whether there is one.
    pub fn choose(&mut self, name: Option<String>) -> bool
        ensures named { result ≡ is_named (plain_texts self.old.texts.items) (plain_name name) }
        ensures texts { self.new.texts ≡ self.old.texts }
        ensures chosen { self.new.chosen ≡ Some name }
        ensures place { self.new.place ≡ 0 }
    {
        let named = text_of(self.texts.as_slice(), &name).is_some();
        self.chosen = Some(name);
        self.place = 0;
        named
    }

    /// Whether the text chosen last is there.
    pub fn has_chosen(&self) -> bool
        ensures { result ≡ is_chosen (plain_texts self.now.texts.items) (option_map plain_name self.now.chosen) }
    {
        match &self.chosen {
            Some(name) => text_of(self.texts.as_slice(), name).is_some(),
            None => false,
        }
    }

    /// The text chosen last, or the empty text where it isn't there.
    fn chosen_text(&self) -> &[u8]
        ensures { result.now ≡ text_chosen (plain_texts self.now.texts.items) (option_map plain_name self.now.chosen) }
    {
        match &self.chosen {
            Some(name) => text_of(self.texts.as_slice(), name).unwrap_or(&[]),
            None => &[],
        }
    }

    /// Copies the next bytes of the text chosen last, at most `most`, to the front of `into`, and says
    /// how many they are.
    pub fn read(&mut self, most: usize, into: &mut [u8]) -> usize
        requires moves { 1 ≤ most }
        requires room { 0 < length into.old }
        ensures reads { ReadsAt (text_chosen (plain_texts self.old.texts.items) (option_map plain_name self.old.chosen))
            self.old.place self.new.place result into.new }
        ensures count { result ≡ min (left_of (text_chosen (plain_texts self.old.texts.items) (option_map plain_name self.old.chosen))
            self.old.place) (min (length into.old) most) }
        ensures texts { self.new.texts ≡ self.old.texts }
        ensures chosen { self.new.chosen ≡ self.old.chosen }
    {
        let count = copy_at(self.chosen_text(), self.place, most, into);
        self.place += count;
        count
    }
}

// Whether two names are the same.
fn is_same_name(one: &Option<String>, other: &Option<String>) -> bool
    ensures { result ≡ same_name (plain_name one.now) (plain_name other.now) }
{
    match (one, other) {
        (Some(one), Some(other)) => one == other,
        (None, None) => true,
        _ => false,
    }
}

// The text of this name.
fn text_of<'t>(texts: &'t [(Option<String>, Vec<u8>)], name: &Option<String>) -> Option<&'t [u8]>
    ensures found { is_some result ≡ is_named (plain_texts texts.now) (plain_name name.now) }
    ensures text { IfSome result (λ text. text.now ≡ text_named (plain_texts texts.now) (plain_name name.now)) }
    ensures lacking { IfNone result (text_named (plain_texts texts.now) (plain_name name.now) ≡ []) }
{
    for text in texts {
        if is_same_name(&text.0, name) {
            return Some(text.1.as_slice());
        }
    }
    None
}

// Copies what a text has at a place, at most `most` bytes, to the front of `into`, and says how many
// bytes they are.
fn copy_at(text: &[u8], place: usize, most: usize, into: &mut [u8]) -> usize
    requires moves { 1 ≤ most }
    requires room { 0 < length into.old }
    ensures reads { ReadsAt text.now place (place + result) result into.new }
    ensures count { result ≡ min (left_of text.now place) (min (length into.old) most) }
{
    let (_, left) = text.split_at(place.min(text.len()));
    let count = left.len().min(into.len()).min(most);
    into[..count].copy_from_slice(&left[..count]);
    count
}
