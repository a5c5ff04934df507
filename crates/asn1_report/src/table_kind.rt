//! The kinds of table.
ghost use Rattle.std.specs.Prelude.{◌≡◌};
ghost use Rattle.asn1_report.specs.Grammar.{kind_of};
ghost use Rattle.asn1_report.specs.SchemaTables.{kind_word};

/// Whether a table has the components of a SEQUENCE or of a SET.
#[derive(Clone, Copy)]
pub(crate) enum TableKind {
    /// The components of a SEQUENCE.
    Sequence,
    /// The components of a SET.
    Set,
}

impl TableKind {
    /// The kind that the word names.
    pub(crate) fn from_word(word: &[u8]) -> Option<TableKind>
        ensures named { result ≡ kind_of word.now }
    {
        if word == b"sequence".as_slice() {
            Some(TableKind::Sequence)
        } else if word == b"set".as_slice() {
            Some(TableKind::Set)
        } else {
            None
        }
    }

    /// The word that names the kind.
    pub(crate) fn word(self) -> &'static str
        ensures word { result.now ≡ kind_word self }
    {
        match self {
            TableKind::Sequence => "sequence",
            TableKind::Set => "set",
        }
    }
}
