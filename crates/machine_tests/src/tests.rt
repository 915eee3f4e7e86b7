mod scope;
mod state;
mod text;
mod tree;
