use reader::tree::Tree;

// A tree whose names are checked. Only `check` makes one.
#[derive(Clone, Copy)]
pub struct Checked<'a, 'm> {
    tree: &'a Tree<'m>,
}

pub mod check;
pub mod write;
