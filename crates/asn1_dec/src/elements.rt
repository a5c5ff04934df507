//! The elements of a list.
ghost use Rattle.asn1_laws.specs.ReadingExactly.{HasReadElements};
ghost use Rattle.asn1_laws.specs.ReadingTypes.{ReadsElementsLeft};
ghost use Rattle.std.specs.Cmp.Lexicographic.{pointwise};
ghost use Rattle.std.specs.Prelude.{◌≡◌, IfOk, OnErr, OnOk, true};

use crate::decode::Decode;
use crate::decoder::Decoder;
use asn1_laws::DecodeError;

/// The elements that are left in the innermost scope, of which there are at most this many.
#[inline(always)]
pub(crate) fn read_elements<T: Decode, D: Decoder>(
    decoder: &mut D,
    bound: usize,
) -> Result<Vec<T>, DecodeError>
    ensures read { ReadsElementsLeft D.reader bound T.meaning (λ w. pointwise T.eq w.items)
        decoder.old decoder.new result }
    ensures only { IfOk result (λ w. HasReadElements D.reader decoder.old decoder.new T.meaning
        w.items) }
    ensures same_depth { OnOk result (D.reader.depth_left decoder.new ≡
        D.reader.depth_left decoder.old) }
    ensures has_failed { OnErr result (D.reader.failed decoder.new ≡ true) }
{
    let mut elements = Vec::new(decoder.global());
    for _index in 0..bound {
        if !decoder.more()? {
            return Ok(elements);
        }
        let element = match T::decode(decoder) {
            Ok(element) => element,
            Err(error) => return Err(decoder.refuse(error)),
        };
        match elements.push(element) {
            Ok(()) => {}
            Err(_) => return Err(decoder.refuse(DecodeError::Memory)),
        }
    }
    Ok(elements)
}
