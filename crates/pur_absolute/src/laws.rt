//! Laws of fragments whose URIs are absolute, each as the contract of a function that does nothing.
ghost use Rattle.std.specs.Prelude.{Bool};
ghost use Rattle.pur_tree.specs.Nodes.{Nodes};
ghost use Rattle.pur_uri.specs.Uris.{PlainUri};
ghost use Rattle.pur_absolute.specs.Laws.{AbsoluteStays, KeepsNodes, StaysValid};
ghost use Rattle.pur_absolute.specs.Rows.{LinksGetTheScheme, UrlsGetTheHost, CommentsAreDropped, PicturesGoWithTheirSource, LinksLoseTheirTarget, TextsAreJoined};

use pur_cssprops::{canonical_is_read_as_itself, styles_are_allowed};
use pur_csstok::{
    atom_is_word, atoms_are_clean, color_is_read, colors_are_digits, declarations_are_read,
    families_are_clean, length_is_read, number_is_read, url_is_read, urls_are_clean,
    values_are_atoms, words_are_read,
};
use pur_resolve::{resolved_is_canonical, resolving_settles};
use pur_uri::{no_comment_appears, text_is_canonical};

/// What is absolute stays so: each value is its own reading, where each was; each URI has a scheme and is allowed; and making
/// them absolute at the same base again changes nothing. The base may stand in a value itself.
pub fn absolute_stays()
    ensures { AbsoluteStays }
{
    resolving_settles();
    resolved_is_canonical();
    text_is_canonical();
    no_comment_appears();
    canonical_is_read_as_itself();
    styles_are_allowed();
    number_is_read();
    length_is_read();
    color_is_read();
    colors_are_digits();
    values_are_atoms();
    atom_is_word();
    words_are_read();
    atoms_are_clean();
    families_are_clean();
    urls_are_clean();
    url_is_read();
    declarations_are_read();
}

/// Attributes aside: a forest stays one, no texts are neighbours, no element comes to stand in one that excludes it, and all
/// elements stay permitted.
pub fn keeps_nodes()
    ensures { (allows : PlainUri → Bool) (base : PlainUri) (nodes : Nodes) → KeepsNodes allows base nodes }
{}

/// Valid nodes stay valid, under the same settings and rule of hosts, where the base may itself be embedded under both.
///
/// What goes is a picture or a form that must have its URI; each kind of content that has one of them is a kind of any number
/// of letters, so that a word without it is a word.
pub fn valid_stays()
    ensures { StaysValid }
{
    absolute_stays();
    keeps_nodes();
}

/// Worked examples: what becomes of a fragment at a base.
pub fn worked_examples()
    ensures links { LinksGetTheScheme }
    ensures urls { UrlsGetTheHost }
    ensures comments { CommentsAreDropped }
    ensures pictures { PicturesGoWithTheirSource }
    ensures targets { LinksLoseTheirTarget }
    ensures texts { TextsAreJoined }
{}
