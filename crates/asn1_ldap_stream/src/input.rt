//! The input, and the pieces in which it comes.
ghost use Rattle.std.specs.Prelude.{◌≡◌, ◌<◌, [], IfErr, IfOk, OnOk, length};
ghost use Rattle.asn1_ber.specs.Format.{ber_format};
ghost use Rattle.asn1_ber.specs.declared.reader.BerReader.{BerReader};
ghost use Rattle.asn1_ldap_stream.specs.Octets.{elements};
ghost use Rattle.asn1_ldap_stream.specs.Showing.{Continues, EndsBy, HasNoFront, ShowsAll, StopsAt};
ghost use Rattle.asn1_rules.specs.Iters.{state};
ghost use Rattle.asn1_rules.specs.States.{begun};

use crate::failure::Failure;
use crate::messages::MessageRules;
use crate::stream::{check_end, show_whole};
use crate::{DEPTH, ELEMENT_DEPTH};
use asn1_ber::{BerReader, BerRules};
use asn1_rules::{FrontReader, Iter, Rules};
use asn1_types::Any;
use std::alloc::Global;
use std::io::{ErrorKind, Read, Write};

/// The greatest number of bytes of a piece.
const PIECE_LENGTH: usize = 16 * 1024;

/// Writes the lines of each message of an input in BER, as soon as the message is whole, and answers whether each was understood:
/// [`show`] with the reader and the rules of BER. Filters may nest 64 deep.
pub fn show_messages<R: Read, W: Write>(
    alloc: Global,
    reader: &mut R,
    writer: &mut W,
) -> Result<bool, Failure>
    ensures shown { IfOk result (λ all. (by : BerReader) × ShowsAll elements by ber_format 135
        (R.remaining reader.old) (R.remaining reader.new)
        (W.contents writer.old) (W.contents writer.new) all) }
    ensures ended { IfErr result (λ why. (by : BerReader) × EndsBy elements by ber_format 135
        (R.remaining reader.old) (R.remaining reader.new)
        (W.contents writer.old) (W.contents writer.new) why) }
{
    let messages = MessageRules {
        alloc,
        rules: BerRules::new(alloc),
        depth: DEPTH,
    };
    show(
        &messages,
        BerReader::new(alloc, ELEMENT_DEPTH),
        reader,
        writer,
    )
}

/// Writes the lines of each element of an input, as soon as the element is whole, and answers whether each was understood.
pub fn show<R: Read, W: Write, F: FrontReader<Any> + Drop, M: Rules<Output = Vec<u8>>>(
    messages: &MessageRules<M>,
    elements_reader: F,
    reader: &mut R,
    writer: &mut W,
) -> Result<bool, Failure>
    ensures shown { IfOk result (ShowsAll F.fronts elements_reader M.format messages.now.depth
        (R.remaining reader.old) (R.remaining reader.new)
        (W.contents writer.old) (W.contents writer.new)) }
    ensures ended { IfErr result (EndsBy F.fronts elements_reader M.format messages.now.depth
        (R.remaining reader.old) (R.remaining reader.new)
        (W.contents writer.old) (W.contents writer.new)) }
{
    let mut piece = vec![in messages.alloc; 0; PIECE_LENGTH]?;
    let mut elements = Iter::new(messages.alloc, &[], elements_reader);
    show_pieces(messages, &mut elements, reader, &mut piece, writer)
}

/// Writes the lines of each element of an input, of which nothing is read yet. An interrupted read is tried again.
fn show_pieces<R: Read, W: Write, F: FrontReader<Any> + Drop, M: Rules<Output = Vec<u8>>>(
    messages: &MessageRules<M>,
    elements: &mut Iter<'_, Any, F>,
    reader: &mut R,
    piece: &mut [u8],
    writer: &mut W,
) -> Result<bool, Failure>
    requires room { 0 < length piece.old }
    requires begun { state elements.old ≡ begun (state elements.old).reader [] }
    ensures shown { IfOk result (ShowsAll F.fronts (state elements.old).reader
        M.format messages.now.depth (R.remaining reader.old) (R.remaining reader.new)
        (W.contents writer.old) (W.contents writer.new)) }
    ensures ended { IfErr result (EndsBy F.fronts (state elements.old).reader
        M.format messages.now.depth (R.remaining reader.old) (R.remaining reader.new)
        (W.contents writer.old) (W.contents writer.new)) }
{
    let mut all_understood = true;
    for _ in 0..u64::MAX {
        match reader.read(piece) {
            Ok(0) => {
                check_end(elements)?;
                return Ok(all_understood);
            }
            Ok(size) => {
                show_piece(
                    messages,
                    elements,
                    &piece[..size],
                    writer,
                    &mut all_understood,
                )?
            }
            Err(error) => {
                if error.kind() != ErrorKind::Interrupted {
                    return Err(Failure::Reading);
                }
            }
        }
    }
    Err(Failure::Reading)
}

/// Writes the lines of each element that is whole with a piece more.
fn show_piece<W: Write, F: FrontReader<Any> + Drop, M: Rules<Output = Vec<u8>>>(
    messages: &MessageRules<M>,
    elements: &mut Iter<'_, Any, F>,
    piece: &[u8],
    writer: &mut W,
    all_understood: &mut bool,
) -> Result<(), Failure>
    ensures shown { OnOk result (Continues F.fronts (state elements.old).reader
        M.format messages.now.depth piece.now (state elements.old) (state elements.new)
        (W.contents writer.old) (W.contents writer.new) all_understood.old all_understood.new) }
    ensures no_more { OnOk result
        (HasNoFront F.fronts (state elements.old).reader (state elements.new).unread) }
    ensures stopped { IfErr result (StopsAt F.fronts (state elements.old).reader
        M.format messages.now.depth piece.now (state elements.old)
        (W.contents writer.old) (W.contents writer.new) all_understood.old) }
{
    elements.append_bytes(piece)?;
    show_whole(messages, elements, writer, all_understood)
}
