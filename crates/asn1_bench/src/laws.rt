//! Laws of what no other contract names: what the codec and its reader come to, and what derives give.
ghost use Rattle.asn1_bench.specs.Outputs.{AreTooLong};
ghost use Rattle.asn1_items.specs.Headers.{is_one_item};
ghost use Rattle.asn1_items.specs.Items.{packed_marks};
ghost use Rattle.asn1_model.specs.Meaning.{IsWellTagged, own_records};
ghost use Rattle.asn1_model.specs.Records.{Record, highest};
ghost use Rattle.asn1_bench.specs.Carried.{Carries, CarriesWith};
ghost use Rattle.asn1_bench.specs.WrittenItems.{item_writer};
ghost use Rattle.asn1_rules.specs.Fronts.{BelongsTo, IsSteady};
ghost use Rattle.asn1_tags.specs.Derives.{ClonesAll};
ghost use Rattle.std.specs.Prelude.{◌≡◌, ◌↔◌, ◌<◌, ◌≤◌, ◌^◌, All, IsTrue, List, Some, ℕ, false, length, slice_get, take};

use crate::Presence;
use crate::byte_reader::ByteReader;
use crate::no_rules::NoRules;
use crate::reader::BenchReader;
use crate::rules::BenchRules;
use asn1_dec::Decode;
use asn1_rules::{FrontReader, Rules};

/// A law of the codec: an output carries the records whose bytes it is, up to the order inside sets; one value of an open type
/// is one item; and the records that are too long are rejected, and no others.
pub fn the_codec_rejects_what_is_too_long(output: &Vec<u8>)
    ensures carries { (rs : List Record) →
        ⟦<BenchRules as Rules>⟧.format.carries output.now rs ↔ Carries output.now.items rs }
    ensures accepts { (bytes : List ℕ) →
        ⟦<BenchRules as Rules>⟧.format.accepts bytes ≡ is_one_item bytes }
    ensures rejects { (rs : List Record) → ⟦<BenchRules as Rules>⟧.format.rejects rs ↔
        AreTooLong packed_marks rs }
{}

/// A law of each form of items, whatever the bytes of its presence marks are: what is too long, and so rejected, has no output.
pub fn what_is_too_long_has_no_output<P: Presence>()
    ensures { (bytes : List ℕ) (rs : List Record) → All (λ byte. byte < 2 ^ 8) bytes →
        (item_writer {P = P} P.mark_bytes).rejects rs → ¬ CarriesWith P.mark_bytes bytes rs }
{}

/// A law of the reader: trailing bytes change nothing, and an input has one front at most (`steady`); and for each type that can
/// be inside others, what the rules write is a front of the value that was written (`belongs`).
#[tactic(auto, using(crate::proofs::Fronts::packed_steady, crate::proofs::Fronts::packed_belongs))]
pub fn the_reader_belongs_to_the_rules<T: Decode>(reader: &BenchReader)
    ensures steady { IsSteady ⟦<BenchReader as FrontReader<T>>⟧.fronts reader.now }
    ensures belongs { IsWellTagged T.meaning →
        BelongsTo ⟦<BenchReader as FrontReader<T>>⟧.fronts reader.now
        ⟦<BenchRules as Rules>⟧.format T.meaning T.eq }
{}

/// A law of the reader: it takes the first bytes of an input for those of one value if and only if they are one whole item
/// (`cut`), and never none (`not_empty`). It opens as many nested scopes as it was made with (`depth`), and a value has the height
/// of its own records (`height`).
#[tactic(auto, using(crate::proofs::Cuts::no_empty_cut))]
pub fn the_reader_cuts_one_item<T: Decode>(reader: &BenchReader)
    ensures cut { (bytes : List ℕ) (n : ℕ) →
        ⟦<BenchReader as FrontReader<T>>⟧.fronts.cut reader.now bytes n ↔
        ((n ≤ length bytes) × IsTrue (is_one_item (take n bytes))) }
    ensures not_empty { (bytes : List ℕ) →
        ¬ ⟦<BenchReader as FrontReader<T>>⟧.fronts.cut reader.now bytes 0 }
    ensures depth { ⟦<BenchReader as FrontReader<T>>⟧.fronts.depth reader.now ≡
        reader.now.depth }
    ensures height { (v : T) → ⟦<BenchReader as FrontReader<T>>⟧.fronts.height v ≡
        highest (own_records T.meaning v) }
{}

/// A law of [`ByteReader`]: it takes the first byte of an input for a value, and nothing else (`front`); trailing bytes change nothing
/// (`steady`).
#[tactic(auto, using(crate::proofs::Bytes::byte_front_is_first, crate::proofs::Bytes::bytes_steady))]
pub fn the_byte_reader_takes_one_byte(reader: &ByteReader)
    ensures front { (bytes : List ℕ) (v n : ℕ) →
        ⟦<ByteReader as FrontReader<u8>>⟧.fronts.front reader.now bytes v n ↔
        ((n ≡ 1) × (slice_get bytes 0 ≡ Some v)) }
    ensures steady { IsSteady ⟦<ByteReader as FrontReader<u8>>⟧.fronts reader.now }
{}

/// A law of [`NoRules`]: no output carries anything (`carries`), no bytes are one value of an open type (`accepts`), and every list
/// of records is rejected (`rejects`).
pub fn no_rules_reject_everything(output: &Vec<u8>)
    ensures carries { (rs : List Record) →
        ¬ ⟦<NoRules as Rules>⟧.format.carries output.now rs }
    ensures accepts { (bytes : List ℕ) → ⟦<NoRules as Rules>⟧.format.accepts bytes ≡ false }
    ensures rejects { (rs : List Record) → ⟦<NoRules as Rules>⟧.format.rejects rs }
{}

/// A law of the derives: clones of the rules and of the readers are their sources.
pub fn clones_are_their_sources()
    ensures rules { ClonesAll ⟦<BenchRules as Clone>⟧.is_clone
        ⟦<BenchRules as Clone>⟧.is_infallible }
    ensures readers { ClonesAll ⟦<BenchReader as Clone>⟧.is_clone
        ⟦<BenchReader as Clone>⟧.is_infallible }
    ensures no_rules { ClonesAll ⟦<NoRules as Clone>⟧.is_clone
        ⟦<NoRules as Clone>⟧.is_infallible }
    ensures byte_readers { ClonesAll ⟦<ByteReader as Clone>⟧.is_clone
        ⟦<ByteReader as Clone>⟧.is_infallible }
{}
