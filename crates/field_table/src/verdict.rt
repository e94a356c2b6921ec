/// What the parent makes of a field that a process wrote.
#[derive(Clone, Copy, Debug, PartialEq, Eq)]
pub enum Verdict {
    /// The value is taken and passed on.
    Allow,
    /// The process that wrote it is ended.
    Deny,
    /// The value isn't taken, and the process is told the present one.
    Revert,
}
