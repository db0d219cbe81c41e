use crate::letters::Letters;

/// A component of a pattern.
#[derive(Drop)]
pub enum Component {
    /// `**`, which takes any number of components.
    AnyDepth,
    /// What one component has to fit: `*` takes any number of characters and `?` takes one.
    Name(Letters),
}

/// What paths are to be matched by.
#[derive(Drop)]
pub struct Pattern {
    /// Whether it matches from the root only.
    pub anchored: bool,
    pub components: Vec<Component>,
}
