use pur_attrlist::AttrList;
use pur_names::Element;

/// A node of a tree: a text or an element.
#[cycle(node)]
#[derive(Drop)]
pub enum Node {
    /// A run of characters.
    Text(String),
    /// An element with its children.
    Elem(Elem),
}

/// An element: its name, its attributes and its children in document order.
#[cycle(node)]
#[derive(Drop)]
pub struct Elem {
    /// The element's name.
    pub name: Element,
    /// The attributes, in the order in which they are written.
    pub attrs: AttrList,
    /// The children, in document order.
    pub children: Vec<Node>,
}
