//! The parts of a table, grouped in one walk along its children.

ghost use Rattle.std.specs.Prelude.{◌≡◌, IfOk, OnOk};
ghost use Rattle.pur_tree.specs.Image.{nodes_of, node_before};
ghost use Rattle.pur_tree.specs.Nodes.{Nodes, no_nodes, nodes_append};
ghost use Rattle.pur_nesting.specs.declared.roles.Part.{Part};
ghost use Rattle.pur_nesting.specs.Parts.{part, at_first, next, role_of};
ghost use Rattle.pur_nesting.specs.Private.Grouping.{stack, before_if};

use crate::roles::{Met, Part, role_of};
use pur_tree::{Elem, Node};
use std::alloc::{AllocError, Global};

/// The children of a table, by parts; those of one part stand in their old order.
#[derive(Drop)]
pub struct Parts {
    pub lead: Vec<Node>,
    pub captions: Vec<Node>,
    pub columns: Vec<Node>,
    pub heads: Vec<Node>,
    pub feet: Vec<Node>,
    pub bodies: Vec<Node>,
    pub surplus: Vec<Node>,
}

impl Parts {
    /// No children yet.
    pub fn new(alloc: Global) -> Parts
        ensures { (wanted : Part) → stack wanted result ≡ no_nodes }
    {
        Parts {
            lead: Vec::new(alloc),
            captions: Vec::new(alloc),
            columns: Vec::new(alloc),
            heads: Vec::new(alloc),
            feet: Vec::new(alloc),
            bodies: Vec::new(alloc),
            surplus: Vec::new(alloc),
        }
    }

    /// Puts a node behind those of its part.
    pub fn push(&mut self, part: Part, node: Node) -> Result<(), AllocError>
        ensures { OnOk result ((wanted : Part) (more : Nodes) → nodes_append (stack wanted self.new) more
            ≡ nodes_append (stack wanted self.old) (before_if wanted part node more)) }
    {
        match part {
            Part::Lead => self.lead.push(node)?,
            Part::Captions => self.captions.push(node)?,
            Part::Columns => self.columns.push(node)?,
            Part::Heads => self.heads.push(node)?,
            Part::Feet => self.feet.push(node)?,
            Part::Bodies => self.bodies.push(node)?,
            Part::Surplus => self.surplus.push(node)?,
        }
        Ok(())
    }
}

/// What was met after a node more; the node belongs to the part that is then told.
fn after(met: Met, node: &Node) -> Met
    ensures { (wanted : Part) (more : Nodes) → part wanted met (node_before node.now more)
        ≡ before_if wanted result.part node.now (part wanted result more) }
{
    match node {
        Node::Text(_) => met,
        Node::Elem(elem) => after_element(met, elem),
    }
}

// What was met after an element more.
fn after_element(met: Met, elem: &Elem) -> Met
    ensures { result ≡ next met (role_of elem.now.name) }
{
    met.next(role_of(elem.name))
}

/// The parts of a table that has these children. They are moved, in one walk.
pub fn grouped(alloc: Global, children: Vec<Node>) -> Result<Parts, AllocError>
    ensures { IfOk result (λ parts. (wanted : Part) → stack wanted parts ≡ part wanted at_first (nodes_of children.items)) }
{
    let mut parts = Parts::new(alloc);
    let mut met = Met::at_first();
    for node in children {
        met = after(met, &node);
        parts.push(met.part, node)?;
    }
    Ok(parts)
}
