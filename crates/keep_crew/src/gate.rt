/// What workers come by: each before its work, and once its answer is there.
///
/// A crew calls it at each place, from 0. What it does there is its own.
pub trait Gate {
    fn before(&self, place: usize);

    fn after(&self, place: usize);
}

/// The gate that everybody may pass.
#[derive(Clone, Copy)]
pub struct OpenGate;

impl Gate for OpenGate {
    fn before(&self, _place: usize) {}

    fn after(&self, _place: usize) {}
}
