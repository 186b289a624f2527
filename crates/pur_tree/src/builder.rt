ghost use Rattle.std.specs.Prelude.{◌≡◌, ◌++◌, ◌∷◌, [], ◌<◌, ◌-◌, length, vec_len, OnOk, OnErr, IfOk, string_bytes, IsTrue};
ghost use Rattle.std.specs.Str.{chars};
ghost use Rattle.pur_tree.specs.Building.{written_of, opened_of, closings_of, can_hold, last_of, text_nodes};
ghost use Rattle.pur_tree.specs.Nodes.{plain_elem, nodes_append, is_joined};
ghost use Rattle.pur_tree.specs.Forests.{IsForest};
ghost use Rattle.pur_tree.specs.Image.{nodes_of};
ghost use Rattle.pur_tree.specs.Places.{LevelFits};
ghost use Rattle.pur_tree.specs.Tokens.{opening_of, closing_of, text_token, joined, IsTreeOf};

use crate::forest::Forest;
use crate::node::{Elem, Node};
use crate::room::without_slack;
use pur_attrlist::AttrList;
use pur_names::Element;
use std::alloc::{AllocError, Global};
use std::marker::Model;
use std::mem;

/// An open element with its attributes, and the nodes that stand before it in its parent.
#[derive(Drop)]
struct Outer {
    before: Vec<Node>,
    name: Element,
    attrs: AttrList,
}

/// Makes a forest from the opening and closing of elements and the texts between them, in the order in
/// which they stand in a document.
///
/// Contracts speak of the tokens that were written so far (`written_of`) and of the elements that are
/// open, outermost first (`opened_of`).
#[derive(Drop)]
pub struct Builder {
    alloc: Global,
    outer: Vec<Outer>,
    children: Vec<Node>,
    text: String,
}

impl Model for Builder {
    ghost use Rattle.std.specs.Prelude.{List, ℕ, string_bytes};
    ghost use Rattle.std.specs.Str.{chars};
    ghost use Rattle.std.specs.Coded.{codes};
    ghost use Rattle.pur_tree.specs.declared.node.Node.{Node};
    ghost use Rattle.pur_tree.specs.contracts.node.Node as n;
    ghost use Rattle.pur_tree.specs.declared.builder.Outer.{Outer};
    ghost use Rattle.pur_tree.specs.contracts.builder.Outer as o;
    ghost use Rattle.pur_tree.specs.Building.{IsBuilding};

    ghost Value = { List Outer × List Node × List ℕ };

    ghost coded = { Prim.hlevel (codes, n.the_row.coded, o.the_row.coded) };

    ghost view = { λ b. (b.outer.items, b.children.items, chars (string_bytes b.text)) };

    ghost invariant = { λ b. IsBuilding (b.outer.items, b.children.items, chars (string_bytes b.text)) };
}

impl Builder {
    /// A builder with nothing written. It takes no memory.
    pub fn new(alloc: Global) -> Builder
        ensures written { written_of result ≡ [] }
        ensures opened { opened_of result ≡ [] }
    {
        Builder {
            alloc,
            outer: Vec::new(alloc),
            children: Vec::new(alloc),
            text: String::new(alloc),
        }
    }

    /// Opens an element with these attributes in the innermost open one.
    ///
    /// The element's level there must be within `LEVEL_LIMIT`, and the innermost open element must not be EMPTY.
    pub fn enter(&mut self, name: Element, attrs: AttrList) -> Result<(), AllocError>
        requires level { LevelFits (opened_of self.old) name }
        requires holds { IsTrue (can_hold (opened_of self.old)) }
        ensures written { OnOk result (written_of self.new ≡ written_of self.old ++ opening_of (plain_elem name attrs) ∷ []) }
        ensures opened { OnOk result (opened_of self.new ≡ opened_of self.old ++ name ∷ []) }
    {
        let text = mem::replace(&mut self.text, String::new(self.alloc));
        let mut before = mem::replace(&mut self.children, Vec::new(self.alloc));
        push_text(&mut before, text)?;
        self.outer.push(Outer {
            before,
            name,
            attrs,
        })?;
        Ok(())
    }

    /// Puts a run of text behind what the innermost open element has; it joins a text there.
    ///
    /// The text must not be empty, and the innermost open element must not be EMPTY.
    pub fn text(&mut self, text: &str) -> Result<(), AllocError>
        requires some { 0 < length text.now }
        requires holds { IsTrue (can_hold (opened_of self.old)) }
        ensures written { OnOk result (written_of self.new ≡ joined (written_of self.old ++ text_token (chars text.now) ∷ [])) }
        ensures opened { OnOk result (opened_of self.new ≡ opened_of self.old) }
    {
        self.text.push_str(text)?;
        Ok(())
    }

    /// Puts a run of text behind what the innermost open element has, as `text` does, and takes it over where no text
    /// stands there.
    ///
    /// The text must not be empty, and the innermost open element must not be EMPTY.
    pub fn move_text(&mut self, text: String) -> Result<(), AllocError>
        requires some { 0 < length (string_bytes text) }
        requires holds { IsTrue (can_hold (opened_of self.old)) }
        ensures written { OnOk result (written_of self.new ≡ joined (written_of self.old ++ text_token (chars (string_bytes text)) ∷ [])) }
        ensures opened { OnOk result (opened_of self.new ≡ opened_of self.old) }
    {
        if self.text.is_empty() {
            self.text = text;
            return Ok(());
        }
        self.text.push_str(text.as_str())?;
        Ok(())
    }

    /// Ends the innermost open element, of which there must be one.
    pub fn leave(&mut self) -> Result<(), AllocError>
        requires { 0 < length (opened_of self.old) }
        ensures opened { OnOk result (opened_of self.old ≡ opened_of self.new ++ last_of (opened_of self.old) ∷ []) }
        ensures written { OnOk result (written_of self.new ≡ written_of self.old ++ closing_of (last_of (opened_of self.old))) }
    {
        let text = mem::replace(&mut self.text, String::new(self.alloc));
        push_text(&mut self.children, text)?;
        match self.outer.pop() {
            Some(
                Outer {
                    mut before,
                    name,
                    attrs,
                },
            ) => {
                let kept = mem::replace(&mut self.children, Vec::new(self.alloc));
                let children = without_slack(kept);
                before.push(Node::Elem(Elem {
                    name,
                    attrs,
                    children,
                }))?;
                self.children = before;
                Ok(())
            }
            None => Ok(()),
        }
    }

    /// Ends all open elements and gives the forest that was built.
    pub fn finish(mut self) -> Result<Forest, AllocError>
        ensures tree { IfOk result (λ forest. IsTreeOf (nodes_of forest) (written_of self ++ closings_of (opened_of self))) }
        ensures settled { IfOk result (λ _. joined (written_of self ++ closings_of (opened_of self)) ≡ written_of self ++ closings_of (opened_of self)) }
        ensures joined { IfOk result (λ forest. IsTrue (is_joined (nodes_of forest))) }
        ensures forest { IfOk result (λ forest. IsForest (nodes_of forest)) }
    {
        'closing: while !self.outer.is_empty() {
            self.leave()?;
        }
        let Builder {
            mut children,
            text,
            ..
        } = self;
        push_text(&mut children, text)?;
        Ok(Forest::from_nodes(without_slack(children)))
    }
}

/// Puts a run of text behind nodes: a node of its own where it isn't empty.
fn push_text(nodes: &mut Vec<Node>, text: String) -> Result<(), AllocError>
    ensures ok { OnOk result (nodes_of nodes.new.items ≡ nodes_append (nodes_of nodes.old.items) (text_nodes (chars (string_bytes text)))) }
    ensures err { OnErr result (nodes.new.items ≡ nodes.old.items) }
{
    if text.is_empty() {
        return Ok(());
    }
    make_room(nodes)?;
    nodes.push(Node::Text(text))?;
    Ok(())
}

// Makes room for one node alone where there is none, since most elements that have a text have nothing else; a `Vec` that
// grows by itself begins with four places.
fn make_room(nodes: &mut Vec<Node>) -> Result<(), AllocError>
    ensures { nodes.new.items ≡ nodes.old.items }
{
    if nodes.is_empty() {
        nodes.reserve_exact(1)?;
    }
    Ok(())
}
