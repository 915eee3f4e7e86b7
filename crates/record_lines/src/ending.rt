//! How the reading of a stream came to its end.

/// How the reading of a stream came to its end, which decides what its records are.
#[derive(Clone, Copy, Debug, PartialEq, Eq)]
pub enum End {
    /// The stream ended: bytes after the last line feed are a last record.
    Ended,
    /// A read failed: the lines whose line feed was read are the records.
    Fault,
    /// A limit was passed: of these lines, those within it are the records.
    Limit,
}
