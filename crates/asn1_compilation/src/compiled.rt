//! What became of texts.
ghost use Rattle.std.specs.Prelude.{◌≡◌, is_some};
ghost use Rattle.asn1_compilation.specs.Messages as spec;

use crate::message::{Message, accepts};
use asn1_print::PrintedFile;

/// What became of some texts.
#[derive(Drop)]
pub struct Compiled {
    /// The errors and warnings, in the order of their places.
    pub messages: Vec<Message>,
    /// The files, if there is no error.
    pub files: Option<Vec<PrintedFile>>,
}

impl Compiled {
    /// These messages, and these files if no message is an error.
    pub(crate) fn new(messages: Vec<Message>, files: Vec<PrintedFile>) -> Compiled
        ensures complete { is_some result.files ≡ spec.accepts result.messages.items }
        ensures told { result.messages.items ≡ messages.items }
    {
        let files = if accepts(messages.as_slice()) {
            Some(files)
        } else {
            None
        };
        Compiled { messages, files }
    }
}
