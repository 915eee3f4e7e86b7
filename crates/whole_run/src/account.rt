//! An account of a run.

use crate::desks::DeskEnd;
use exec_recv::Item;
use op_table::Closing;
use record_loop::Ending;
use record_operations::Tally;
use run_workers::Given;

/// How a run ended, which operations were collected, how its table was closed, how its desks were,
/// where it had any, and in which order backends were given out to its workers.
#[derive(Drop)]
pub struct Account {
    pub ending: Ending,
    pub tally: Tally,
    pub closing: Closing<Item>,
    pub desks: Option<DeskEnd>,
    pub given: Option<Given>,
}
