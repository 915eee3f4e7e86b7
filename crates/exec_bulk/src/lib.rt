//! The steps of a bulk and of its parts ([exec.bulk]).
//!
//! It stands on step_parts, of whose calls each step is made, on node_images, which names the
//! errors of elements, and on the laws of start_laws. It keeps two promises: a step of these nodes
//! starts from where a step may, and ends as a step does, and what it delivers is allowed by the
//! plan for the node's start; and for a row as many parts are begun as it has numbers, eight at
//! most.
//!
//!     bulk  Start --start_child--> Go(child) .. its child is done
//!               --> Done(the same), where that is no row, or an empty one
//!               --> Rest(the child's parcel), awaiting its parts .. the last part is reported
//!               --> Done(the row that the parts make, or the error of the least failing index)
//!     part  Start --> Ready(pool) --> Done(what the job makes of its share)
//!
//! The shares of a row are of neighbouring numbers, and their lengths differ by at most one, the
//! longer ones first. Each part has the whole row as its arguments, which all share, and finds its
//! share by its number: so its start wants no memory. Before a bulk awaits its parts it reads of
//! each that it hasn't begun. A bulk with a stop request above it begins its parts all the same.
#![tactic(auto)]

mod beginning;
mod elements;
mod ending;
mod joining;
mod opening;
mod parts;
mod reading;
mod rows;
mod stepping;

pub use parts::Parts;
pub use stepping::Bulks;
