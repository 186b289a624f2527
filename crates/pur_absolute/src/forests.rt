//! Nodes whose URIs are absolute.
ghost use Rattle.std.specs.Prelude.{◌≡◌, Bool, IfOk, OnOk, OnErr};
ghost use Rattle.pur_settings.specs.Rules.{Rules};
ghost use Rattle.pur_tree.specs.Image.{nodes_of};
ghost use Rattle.pur_tree.specs.Nodes.{no_nodes};
ghost use Rattle.pur_tree.specs.Walks.{walk};
ghost use Rattle.pur_uri.specs.Uris.{PlainUri};
ghost use Rattle.pur_uripolicy.specs.HostRules.{PlainHostRule};
ghost use Rattle.pur_validity.specs.Validity.{IsValid};
ghost use Rattle.pur_absolute.specs.Absolute.{absolute_element, with_absolute_uris};
ghost use Rattle.pur_absolute.specs.Laws.{IsFitBase};
ghost use Rattle.pur_absolute.specs.Private.Left.{IsLeft};
ghost use Rattle.pur_absolute.specs.Rules.{AnswersAs};

use crate::attributes::absolute_attributes;
use crate::laws::valid_stays;
use pur_resolve::Base;
use pur_tree::{Elem, Forest, Node, joins_texts, push_elem, push_text_node};
use pur_uripolicy::{SiteGate, SiteRule, UriTest};
use std::alloc::{AllocError, Global};

/// Replaces each URI of the forest, and each URL of a style, by what it means where the base is (see [`pur_resolve::resolve`]).
///
/// Where the site's rule doesn't allow what it means, the attribute goes, or the declaration of the style; an element that must
/// have the attribute goes with all that is in it. A declaration also goes where its URL would begin a comment, and a style of
/// which no declaration is left. Texts that become neighbours are joined.
///
/// Nodes are moved, and none is copied. The error is want of memory, and the forest is then empty.
pub fn absolute<R: SiteRule, F: UriTest>(
    alloc: Global,
    base: &Base,
    site: &SiteGate<R, F>,
    forest: &mut Forest,
) -> Result<(), AllocError>
    ensures ok { OnOk result ((allows : PlainUri → Bool) → AnswersAs (R.allows site.now) allows
        → nodes_of forest.new ≡ with_absolute_uris allows base.now (nodes_of forest.old)) }
    ensures valid { OnOk result ((rules : Rules) (rule : PlainHostRule) (allows : PlainUri → Bool) → AnswersAs (R.allows site.now) allows
        → IsFitBase rules rule base.now → IsValid rules rule (nodes_of forest.old) → IsValid rules rule (nodes_of forest.new)) }
    ensures err { OnErr result (nodes_of forest.new ≡ no_nodes) }
{
    valid_stays();
    let nodes = forest.take_nodes();
    let nodes = absolute_nodes(alloc, base, site, nodes)?;
    forest.put_nodes(nodes);
    forest.join_texts()
}

// The nodes gone through; each element is asked before what is in it.
fn absolute_nodes<R: SiteRule, F: UriTest>(
    alloc: Global,
    base: &Base,
    site: &SiteGate<R, F>,
    nodes: Vec<Node>,
) -> Result<Vec<Node>, AllocError>
    ensures nodes { IfOk result (λ out. (allows : PlainUri → Bool) → AnswersAs (R.allows site.now) allows
        → nodes_of out.items ≡ walk (absolute_element allows base.now) (nodes_of nodes.items)) }
    ensures left { IfOk result (λ out. IsLeft (nodes_of nodes.items) (nodes_of out.items)) }
{
    let mut out = Vec::with_capacity(alloc, nodes.len())?;
    for node in nodes {
        match node {
            Node::Text(text) => push_text_node(&mut out, text)?,
            Node::Elem(elem) => {
                let Elem {
                    name,
                    attrs,
                    children,
                } = elem;
                if let Some(attrs) = absolute_attributes(alloc, base, site, name, attrs)? {
                    let children = absolute_nodes(alloc, base, site, children)?;
                    push_elem(
                        &mut out,
                        Elem {
                            name,
                            attrs,
                            children,
                        },
                    )?;
                }
            }
        }
    }
    out.shrink_to_fit();
    Ok(out)
}
