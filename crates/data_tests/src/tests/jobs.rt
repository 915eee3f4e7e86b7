//! Worked examples of element jobs, and of what jobs take. What jobs give and refuse is told by
//! cases of the program: tests/cases/jobs.json.
use exec_job::{Job, JobFault, apply_at};
use exec_value::Kind;

#[test]
fn an_element_job_works_on_a_number_at_an_index(rt: HostRuntime) {
    assert!(rt; apply_at(&Job::Index, 9, 3) == Ok(12));
    assert!(rt; apply_at(&Job::Neg, 9, i64::MIN) == Err(JobFault::Overflow));
    assert!(rt; Job::Index.is_element() && !Job::Iota.is_element());
    assert!(rt; Job::Sum.takes(&[Kind::Int, Kind::Row]) && !Job::Sum.takes(&[Kind::Text]));
}
