//! Laws of what no other contract names: what the codec and its reader come to, and what derives give.
ghost use Rattle.asn1_der.specs.Format.{Carries};
ghost use Rattle.asn1_der_items.specs.Series.{is_one_element};
ghost use Rattle.asn1_der.specs.Outputs.{HaveNoDer};
ghost use Rattle.asn1_model.specs.Meaning.{IsWellTagged, own_records};
ghost use Rattle.asn1_model.specs.Records.{Record, highest};
ghost use Rattle.asn1_rules.specs.Fronts.{BelongsTo, IsSteady};
ghost use Rattle.asn1_tags.specs.Derives.{ClonesAll};
ghost use Rattle.std.specs.Prelude.{◌≡◌, ◌↔◌, ◌≤◌, IsTrue, List, ℕ, length, take};

use crate::reader::DerReader;
use crate::rules::DerRules;
use asn1_dec::Decode;
use asn1_rules::{FrontReader, Rules};

/// A law of the codec: an output carries the records whose DER it is, up to the order inside sets; one value of an open type is
/// one element; and the records that have no DER are rejected, and no others.
pub fn the_codec_rejects_what_has_no_der(output: &Vec<u8>)
    ensures carries { (rs : List Record) →
        ⟦<DerRules as Rules>⟧.format.carries output.now rs ↔ Carries output.now.items rs }
    ensures accepts { (bytes : List ℕ) →
        ⟦<DerRules as Rules>⟧.format.accepts bytes ≡ is_one_element bytes }
    ensures rejects { (rs : List Record) → ⟦<DerRules as Rules>⟧.format.rejects rs ↔
        HaveNoDer rs }
{}

/// A law of the reader: trailing bytes change nothing, and an input has one front at most (`steady`); and for each type that can
/// be inside others, what the rules write is a front of the value that was written (`belongs`).
#[tactic(auto, using(crate::proofs::Cuts::der_steady, crate::proofs::Cuts::der_belongs))]
pub fn the_reader_belongs_to_the_rules<T: Decode>(reader: &DerReader)
    ensures steady { IsSteady ⟦<DerReader as FrontReader<T>>⟧.fronts reader.now }
    ensures belongs { IsWellTagged T.meaning →
        BelongsTo ⟦<DerReader as FrontReader<T>>⟧.fronts reader.now
        ⟦<DerRules as Rules>⟧.format T.meaning T.eq }
{}

/// A law of the reader: it takes the first bytes of an input for those of one value if and only if they are one whole element
/// (`cut`), and never none (`not_empty`). It opens as many nested scopes as it was made with (`depth`), and a value has the height
/// of its own records (`height`).
pub fn the_reader_cuts_one_element<T: Decode>(reader: &DerReader)
    ensures cut { (bytes : List ℕ) (n : ℕ) →
        ⟦<DerReader as FrontReader<T>>⟧.fronts.cut reader.now bytes n ↔
        ((n ≤ length bytes) × IsTrue (is_one_element (take n bytes))) }
    ensures not_empty { (bytes : List ℕ) →
        ¬ ⟦<DerReader as FrontReader<T>>⟧.fronts.cut reader.now bytes 0 }
    ensures depth { ⟦<DerReader as FrontReader<T>>⟧.fronts.depth reader.now ≡ reader.now.depth }
    ensures height { (v : T) → ⟦<DerReader as FrontReader<T>>⟧.fronts.height v ≡
        highest (own_records T.meaning v) }
{}

/// A law of the derives: clones of the rules and of a reader are their sources.
pub fn clones_are_their_sources()
    ensures rules { ClonesAll ⟦<DerRules as Clone>⟧.is_clone
        ⟦<DerRules as Clone>⟧.is_infallible }
    ensures readers { ClonesAll ⟦<DerReader as Clone>⟧.is_clone
        ⟦<DerReader as Clone>⟧.is_infallible }
{}
