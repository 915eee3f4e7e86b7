//! How a run goes.

use record_loop::Form;
use run_workers::Crew;

/// How a run goes: how many records are worked on at once, the form in which outcomes are written,
/// and by which crew.
#[derive(Drop)]
pub struct Setup {
    pub window: usize,
    pub form: Form,
    pub crew: Crew,
}
