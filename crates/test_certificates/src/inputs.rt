//! Questions on inputs of `asn1_certificate`.
use asn1_certificate_input::{Options, OutputFormat, run, shown_of};
use std::alloc::Global;
use std::fmt::Write;

/// No options.
pub(crate) const REPORT: Options = Options {
    format: OutputFormat::Report,
    is_strict: false,
    follows: false,
};

/// `--strict`
pub(crate) const STRICT: Options = Options {
    format: OutputFormat::Report,
    is_strict: true,
    follows: false,
};

/// `--der`
pub(crate) const DER: Options = Options {
    format: OutputFormat::Der,
    is_strict: false,
    follows: false,
};

/// The status of a run over an input, and its messages.
pub(crate) fn status_and_messages(
    alloc: Global,
    options: Options,
    octets: &[u8],
) -> Option<String> {
    let mut written: Vec<u8> = Vec::new(alloc);
    let mut unread = octets;
    let outcome = run(alloc, options, &mut unread, &mut written);
    let mut answer = String::new(alloc);
    write!(answer, "status {}", outcome.status).ok()?;
    for message in &outcome.messages {
        write!(answer, "; {message}").ok()?;
    }
    Some(answer)
}

/// The first line with a word in the report of a certificate, or why there is no report.
pub(crate) fn line_of_report(alloc: Global, word: &str, octets: &Vec<u8>) -> Option<String> {
    let shown = match shown_of(alloc, REPORT, octets) {
        Ok(shown) => shown,
        Err(error) => return format!(in alloc; "{error}").ok(),
    };
    let report = String::from_utf8(shown.bytes).ok()?;
    let line = report.as_str().lines().find(|line| line.contains(word))?;
    String::from_str(alloc, line).ok()
}
