//! The values and the children of a node.
//!
//! Most nodes have a single value, or only values, or only children. So both are in one enum: a lone value needs no list, and an
//! empty list takes no space in the node. Only a node with children and values has its values one pointer further away.
#![tactic(auto)]

mod copy;
mod growth;
mod lent;
mod owned_values;
mod shape;

pub use lent::Items;
pub use owned_values::OwnedValues;
pub use shape::Shape;
