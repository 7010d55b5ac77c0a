use crate::tree::Tree;
use crate::words::{Word, Words};

// A reader of the grammar: the words that are left, the word looked at, the nest, which is how many lines
// command, expr and prefix are entered and not left, and the tree that the lines write.
#[derive(Drop)]
pub struct Reader<'t, 'm> {
    pub words: Words<'t>,
    pub word: Option<Word<'t>>,
    pub nest: u8,
    pub tree: &'t mut Tree<'m>,
}

pub mod begins;
pub mod build;
pub mod commands;
pub mod declarations;
pub mod expressions;
pub mod look;
pub mod operators;
