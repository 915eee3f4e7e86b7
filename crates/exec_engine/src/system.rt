//! What a call of `run` runs on.

/// What a call of `run` runs on: the shelf of files, the source of records, the sink of the lines,
/// and the sink of notes.
#[derive(Drop)]
pub struct System<F, S, K, N> {
    pub shelf: F,
    pub records: S,
    pub out: K,
    pub notes: N,
}
