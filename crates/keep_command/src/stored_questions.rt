use keep_hooks::{Veto, Watch};
use keep_plan::Filter;

/// What is stored for the lines of a script: the parts of a kit, those first that a book holds too.
#[derive(Drop)]
pub(crate) struct Stored {
    pub vetoes: Vec<Veto>,
    pub watches: Vec<Watch>,
    pub filters: Vec<Filter>,
}
