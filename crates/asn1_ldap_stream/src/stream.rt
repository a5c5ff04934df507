//! The stream of elements.
ghost use Rattle.std.specs.Prelude.{◌≡◌, ◌<◌, ◌⊎◌, [], IfErr, IfOk, IfNone, MatchOption, OnOk, length};
ghost use Rattle.std.specs.Io.KnownBytes.{Appends};
ghost use Rattle.std.specs.String.{string_bytes};
ghost use Rattle.asn1_laws.specs.declared.decode_error.DecodeError.TheVariants as decode_error;
ghost use Rattle.asn1_ldap_stream.specs.Failures.{IsOutside};
ghost use Rattle.asn1_ldap_stream.specs.Showing.{Came, Continues, HasNoFront, IsFault, StopsAt};
ghost use Rattle.asn1_ldap_stream.specs.declared.failure.Failure.TheVariants.{CutOff, Damaged};
ghost use Rattle.asn1_rules.specs.Iters.{state};

use crate::failure::Failure;
use crate::messages::{ElementText, MessageRules};
use asn1_dec::DecodeError;
use asn1_rules::{FrontReader, Iter, Rules};
use asn1_types::Any;
use std::io::Write;

/// Writes the lines of each element that is whole. A message that is not understood makes `all_understood` false.
pub(crate) fn show_whole<W: Write, F: FrontReader<Any> + Drop, M: Rules<Output = Vec<u8>>>(
    messages: &MessageRules<M>,
    elements: &mut Iter<'_, Any, F>,
    writer: &mut W,
    all_understood: &mut bool,
) -> Result<(), Failure>
    ensures shown { OnOk result (Continues F.fronts (state elements.old).reader
        M.format messages.now.depth [] (state elements.old) (state elements.new)
        (W.contents writer.old) (W.contents writer.new) all_understood.old all_understood.new) }
    ensures no_more { OnOk result
        (HasNoFront F.fronts (state elements.old).reader (state elements.new).unread) }
    ensures stopped { IfErr result (StopsAt F.fronts (state elements.old).reader
        M.format messages.now.depth [] (state elements.old)
        (W.contents writer.old) (W.contents writer.new) all_understood.old) }
{
    for _ in 0..u64::MAX {
        match next_text(messages, elements)? {
            Some(shown) => {
                write_bytes(shown.text.as_bytes(), writer)?;
                *all_understood = *all_understood && shown.understood;
            }
            None => return Ok(()),
        }
    }
    // No memory holds this many elements.
    Err(Failure::Memory)
}

/// The text of the next element; `None` if it is not whole.
fn next_text<F: FrontReader<Any> + Drop, M: Rules<Output = Vec<u8>>>(
    messages: &MessageRules<M>,
    elements: &mut Iter<'_, Any, F>,
) -> Result<Option<ElementText>, Failure>
    ensures came { IfOk result (λ next. MatchOption next
        (state elements.new ≡ state elements.old)
        (λ shown. Came F.fronts (state elements.old).reader M.format messages.now.depth
        (state elements.old) (state elements.new) (string_bytes shown.text) shown.understood)) }
    ensures no_more { IfOk result (λ next. IfNone next
        (HasNoFront F.fronts (state elements.old).reader (state elements.old).unread)) }
    ensures stopped { IfErr result (λ failure. IsOutside failure ⊎
        IsFault F.fronts (state elements.old).reader M.format messages.now.depth failure
        (state elements.old).consumed (state elements.old).unread) }
{
    let position = elements.consumed();
    match elements.next() {
        Some(Ok(element)) => {
            let octets = element.into_bytes();
            match messages.element_text(&octets) {
                Ok(shown) => Ok(Some(shown)),
                Err(error) => Err(failure_at(position, error)),
            }
        }
        Some(Err(DecodeError::Incomplete(_))) => Ok(None),
        Some(Err(error)) => Err(failure_at(position, error)),
        None => unreachable!(),
    }
}

/// The failure that no message begins at this position, for this error.
fn failure_at(position: u128, error: DecodeError) -> Failure
    ensures memory { error ≡ decode_error.Memory → IsOutside result }
    ensures damaged { (error ≡ decode_error.Memory → ⊥) → result ≡ Damaged position error }
{
    match error {
        DecodeError::Memory => Failure::Memory,
        _ => Failure::Damaged(position, error),
    }
}

/// Writes bytes, and flushes the writer.
fn write_bytes<W: Write>(bytes: &[u8], writer: &mut W) -> Result<(), Failure>
    ensures written { OnOk result
        (Appends (W.contents writer.old) (W.contents writer.new) bytes.now) }
    ensures failed { IfErr result IsOutside }
{
    if writer.write_all(bytes).is_err() || writer.flush().is_err() {
        return Err(Failure::Writing);
    }
    Ok(())
}

/// Succeeds if and only if the stream ends behind a whole element.
pub(crate) fn check_end<F: FrontReader<Any> + Drop>(
    elements: &Iter<'_, Any, F>,
) -> Result<(), Failure>
    ensures whole { OnOk result ((state elements.now).unread ≡ []) }
    ensures cut_off { IfErr result (λ failure. failure ≡
        CutOff (state elements.now).consumed (length (state elements.now).unread)) }
    ensures some { IfErr result (λ _. 0 < length (state elements.now).unread) }
{
    let unread = elements.unread();
    if unread.is_empty() {
        return Ok(());
    }
    Err(Failure::CutOff(elements.consumed(), unread.len()))
}
