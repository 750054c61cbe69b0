// Why a project was refused.
use thiserror::Error;

/// Why a project was refused, with the first faulty line, counted from 1. The codes are 90 for a line
/// that is not of the grammar, 92 for a second title or source, 93 for the 257th texture or the
/// 1,025th sound, 91 where a title or a source is missing: that one names the line after the last.
#[derive(Debug, Drop, Error)]
pub enum ProjectErr {
    #[error("bad data {code} at {line}")]
    At { code: u32, line: u32 },
    #[error("out of memory")]
    Memory,
}
