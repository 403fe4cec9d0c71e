// What the words ask for.
use command_line::CheckJob;

/// An explanation of a trace's results.
#[derive(Clone, Copy, Drop)]
pub struct ExplainJob {
    /// The check that is explained.
    pub check: CheckJob,
    /// Whether a row that is told to be worn must have an accepted write of its bank before it.
    pub strict: bool,
}
