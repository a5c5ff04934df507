//! What a user asks of the program.

/// The format in which a certificate is written.
#[derive(Clone, Copy, Debug, Drop, PartialEq, Eq)]
pub enum OutputFormat {
    /// As the lines of a report.
    Report,
    /// As its DER.
    Der,
}

/// How certificates are written, and which are refused.
#[derive(Clone, Copy, Debug, Drop)]
pub struct Options {
    /// The format.
    pub format: OutputFormat,
    /// Whether a certificate whose octets are not its DER is refused. If not, it is shown with a warning.
    pub is_strict: bool,
    /// Whether certificates of another input were written before, so that an empty line goes before the first report.
    pub follows: bool,
}
