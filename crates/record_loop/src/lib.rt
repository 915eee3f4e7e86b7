//! The loop over records: what is read, worked on at once, and written in order.
//!
//!     source --read--> piece --Cutter--> line --InFlight::take--> slot, ticket of an operation
//!     front slot --collect--> Outcome --Printer--> out: its line, or its part of the summary
//!
//! # The life of a record
//!
//!     read --request_due--> counted --begin_next--> in flight --write_next--> written
//!                  |                                    (or bad, or no memory for its datum)
//!                  `stop_after` requests a stop here, before the record is begun
//!                                                                  `on_error` requests one here,
//!                                                                  before anything more is read
//!
//! At most a window of records is in flight. Before a read that may block, all of them are written,
//! and what was written is handed on. It keeps that the lines are lawful for the records that were
//! read (line_rules): one a record, in order, under the stop state of each.
//!
//! The operations are run by a layer below, behind the trait `Operations`, which names an operation
//! by a ticket; the loop is proved once for all of them. That layer lists what it collects, with
//! the table on which it ran (run_tally). At the end each line is told by an operation of that
//! table (`IsToldBy`), as many operations were collected with values, errors and stops as there are
//! such lines (`TalliesWith`), and none runs.
//!
//! Records come from any `RecordSource`: each `Source` is one, and so are generated records
//! (`Generated`). The loop stands on line_rules, record_lines, line_summary and run_tally.
#![tactic(auto)]

mod ending;
mod generated;
mod in_flight;
mod operations;
mod printer;
mod record_source;
mod run;
mod session;
mod slot;

pub use ending::Ending;
pub use generated::Generated;
pub use operations::Operations;
pub use printer::Form;
pub use record_source::RecordSource;
pub use run::run_records;
