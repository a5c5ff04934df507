//! The output for an input.
ghost use Rattle.std.specs.Prelude.{◌≡◌, ◌≢◌, ◌++◌, ◌∷◌, [], IfErr, IfOk, List, OnOk, false, length, true, ℕ};
ghost use Rattle.asn1_certificate_input.specs.Answers.{AnswersInput, AreAnswers, messages_of, number_of, refusal, warning_messages};
ghost use Rattle.asn1_certificate_input.specs.Refused.{IsRefusalOf};
ghost use Rattle.asn1_certificate_input.specs.Shown.{IsShownOf, separator};
ghost use Rattle.asn1_certificate_input.specs.declared.error.InputError.TheVariants.{Memory};

use crate::certificate::{Shown, Warnings, shown_of};
use crate::error::InputError;
use crate::inputs::certificates_of;
use crate::message::{Message, Notice, number_of};
use crate::options::{Options, OutputFormat};
use asn1_certificate_text::PemCertificate;
use std::alloc::{AllocError, Global};

/// The output for an input, and the messages beside it.
#[derive(Drop)]
pub struct Output {
    /// The certificates that are shown, in their order. There is an empty line between the reports of two.
    pub bytes: Vec<u8>,
    /// The warnings and refusals, in the order of the certificates.
    pub messages: Vec<Message>,
    /// Whether the input or one of its certificates is refused.
    pub is_refused: bool,
}

/// The output for an input, which is the DER of a certificate or a text with certificates in base64.
///
/// # Errors
/// [`AllocError`], if memory runs out.
pub fn output_of(alloc: Global, options: Options, input: Vec<u8>) -> Result<Output, AllocError>
    ensures { IfOk result (λ output.
        AnswersInput options input.items output.bytes.items output.messages.items
        output.is_refused) }
{
    match certificates_of(alloc, input) {
        Ok(certificates) => output_of_all(alloc, options, certificates.as_slice()),
        Err(error) => {
            let mut output = Output::empty(alloc);
            output.refuse(None, error)?;
            Ok(output)
        }
    }
}

/// The output for the certificates of an input.
fn output_of_all(
    alloc: Global,
    options: Options,
    certificates: &[PemCertificate],
) -> Result<Output, AllocError>
    ensures { IfOk result (λ output.
        AreAnswers options (length certificates.now) certificates.now output.bytes.items
        output.messages.items output.is_refused) }
{
    let mut output = Output::empty(alloc);
    for index in 0..certificates.len() {
        let number = number_of(index, certificates.len());
        let answer = answer_of(alloc, options, &certificates[index]);
        output.add_answer(options, number, answer)?;
    }
    Ok(output)
}

impl Output {
    /// The output for no certificate.
    fn empty(alloc: Global) -> Output
        ensures bytes { result.bytes.items ≡ [] }
        ensures messages { result.messages.items ≡ [] }
        ensures not_refused { result.is_refused ≡ false }
    {
        Output {
            bytes: Vec::new(alloc),
            messages: Vec::new(alloc),
            is_refused: false,
        }
    }

    /// Adds the answer for the next certificate.
    fn add_answer(
        &mut self,
        options: Options,
        number: Option<usize>,
        answer: Result<Shown, InputError>,
    ) -> Result<(), AllocError>
        ensures { (count : ℕ) (found : List PemCertificate) (next : PemCertificate) →
            number ≡ number_of (length found) count →
            AreAnswers options count found self.old.bytes.items self.old.messages.items
            self.old.is_refused →
            IfOk answer (λ shown. IsShownOf options next shown.bytes.items shown.warnings) →
            IfErr answer (IsRefusalOf options next) →
            OnOk result (AreAnswers options count (found ++ next ∷ []) self.new.bytes.items
            self.new.messages.items self.new.is_refused) }
    {
        match answer {
            Ok(shown) => self.add(options, number, shown),
            Err(error) => self.refuse(number, error),
        }
    }

    /// Adds a certificate, with the warnings about it.
    fn add(
        &mut self,
        options: Options,
        number: Option<usize>,
        shown: Shown,
    ) -> Result<(), AllocError>
        ensures added { OnOk result (self.new.bytes.items ≡
            self.old.bytes.items ++ (separator options self.old.bytes.items ++ shown.bytes.items)) }
        ensures warned { OnOk result (self.new.messages.items ≡
            self.old.messages.items ++ warning_messages number shown.warnings) }
        ensures same { OnOk result (self.new.is_refused ≡ self.old.is_refused) }
    {
        if options.format == OutputFormat::Report && (options.follows || !self.bytes.is_empty()) {
            self.bytes.push(b'\n')?;
        }
        self.bytes.extend_from_slice(shown.bytes.as_slice())?;
        self.warn(number, shown.warnings)
    }

    /// Adds the warnings about a certificate.
    fn warn(&mut self, number: Option<usize>, warnings: Warnings) -> Result<(), AllocError>
        ensures bytes { OnOk result (self.new.bytes.items ≡ self.old.bytes.items) }
        ensures added { OnOk result (self.new.messages.items ≡
            self.old.messages.items ++ warning_messages number warnings) }
        ensures same { OnOk result (self.new.is_refused ≡ self.old.is_refused) }
    {
        self.add_message(number, warnings.departure.map(Notice::Departs))?;
        self.add_message(number, warnings.issuer.map(Notice::Alphabet))?;
        self.add_message(number, warnings.subject.map(Notice::Alphabet))
    }

    /// Adds the message of a notice, if there is one.
    fn add_message(
        &mut self,
        number: Option<usize>,
        notice: Option<Notice>,
    ) -> Result<(), AllocError>
        ensures bytes { OnOk result (self.new.bytes.items ≡ self.old.bytes.items) }
        ensures added { OnOk result (self.new.messages.items ≡
            self.old.messages.items ++ messages_of number notice) }
        ensures same { OnOk result (self.new.is_refused ≡ self.old.is_refused) }
    {
        let Some(notice) = notice else {
            return Ok(());
        };
        self.messages.push(Message { number, notice })?;
        Ok(())
    }

    /// Adds a refusal.
    fn refuse(&mut self, number: Option<usize>, error: InputError) -> Result<(), AllocError>
        ensures same { OnOk result (self.new.bytes.items ≡ self.old.bytes.items) }
        ensures added { OnOk result (self.new.messages.items ≡
            self.old.messages.items ++ refusal number error ∷ []) }
        ensures refused { OnOk result (self.new.is_refused ≡ true) }
        ensures not_memory { OnOk result (error ≢ Memory) }
    {
        if let InputError::Memory = error {
            return Err(AllocError);
        }
        self.is_refused = true;
        self.messages.push(Message::refusal(number, error))?;
        Ok(())
    }
}

/// A certificate of an input, as the options ask for it.
fn answer_of(
    alloc: Global,
    options: Options,
    certificate: &PemCertificate,
) -> Result<Shown, InputError>
    ensures shown { IfOk result (λ shown.
        IsShownOf options certificate.now shown.bytes.items shown.warnings) }
    ensures refused { IfErr result (IsRefusalOf options certificate.now) }
{
    match certificate {
        PemCertificate::Octets(octets) => shown_of(alloc, options, octets),
        PemCertificate::Refused(error) => Err(InputError::Text(*error)),
    }
}
