//! The calls of a builder, by the shape of the node that they add.

mod adaptor;
mod leaf;
mod list;
