//! The forms in which values come and go.
ghost use Rattle.asn1_convert.specs.Forms.{codec_word, output_word};
ghost use Rattle.asn1_convert.specs.declared.form.CodecForm.{CodecForm};
ghost use Rattle.asn1_convert.specs.declared.form.OutputForm.{OutputForm};
ghost use Rattle.std.specs.Prelude.{◌≡◌, IfSome};

/// A codec of which values are read, and by which they are written.
#[derive(Clone, Copy, Debug, Drop, PartialEq, Eq)]
pub enum CodecForm {
    /// DER.
    Der,
    /// BER.
    Ber,
    /// The packed codec.
    Packed,
}

/// A form in which values are written.
#[derive(Clone, Copy, Debug, Drop, PartialEq, Eq)]
pub enum OutputForm {
    /// The octets of a codec.
    Codec(CodecForm),
    /// X.680's notation of values.
    Notation,
    /// JSON.
    Json,
}

impl CodecForm {
    /// The codec that a word of a command line names: `der`, `ber` or `packed`.
    pub fn from_word(word: &str) -> Option<CodecForm>
        ensures named { IfSome result (λ form. word.now ≡ codec_word form) }
        ensures found { (form : CodecForm) → word.now ≡ codec_word form → result ≡ Some form }
    {
        match word {
            "der" => Some(CodecForm::Der),
            "ber" => Some(CodecForm::Ber),
            "packed" => Some(CodecForm::Packed),
            _ => None,
        }
    }
}

impl OutputForm {
    /// The form that a word of a command line names: that of a codec, `text` or `json`.
    pub fn from_word(word: &str) -> Option<OutputForm>
        ensures named { IfSome result (λ form. word.now ≡ output_word form) }
        ensures found { (form : OutputForm) → word.now ≡ output_word form → result ≡ Some form }
    {
        match word {
            "text" => Some(OutputForm::Notation),
            "json" => Some(OutputForm::Json),
            _ => Some(OutputForm::Codec(CodecForm::from_word(word)?)),
        }
    }
}
