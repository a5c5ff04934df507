//! The records of a value of each sample type, the same for every codec. `specs/SampleRecords` writes them out.
ghost use Rattle.asn1_samples.specs.SampleRecords.{badge_records, color_records, corner_records, envelope_records, gauge_records, labelled_records, notice_records, pair_records, person_records, plate_records, profile_records, settings_records, shape_records, ticket_records, visit_records};
ghost use Rattle.asn1_types.specs.Words.{rows, own_records};
ghost use Rattle.std.specs.Prelude.{◌≡◌};

use crate::badge::Badge;
use crate::color::Color;
use crate::corner::Corner;
use crate::envelope::Envelope;
use crate::gauge::Gauge;
use crate::labelled::Labelled;
use crate::notice::Notice;
use crate::pair::Pair;
use crate::person::Person;
use crate::plate::Plate;
use crate::profile::Profile;
use crate::settings::Settings;
use crate::shape::Shape;
use crate::ticket::Ticket;
use crate::visit::Visit;
use asn1_types::{AsnType, FieldTable};

/// A law of the SEQUENCE types: what a value of each is to every codec.
pub fn sequences_have_their_records(
    person: &Person,
    notice: &Notice,
    profile: &Profile,
    visit: &Visit,
    envelope: &Envelope,
    labelled: &Labelled,
    settings: &Settings,
)
    ensures person { own_records ⟦<Person as AsnType>⟧.meaning person.now ≡
        person_records person.now }
    ensures notice { own_records ⟦<Notice as AsnType>⟧.meaning notice.now ≡
        notice_records notice.now }
    ensures profile { own_records ⟦<Profile as AsnType>⟧.meaning profile.now ≡
        profile_records profile.now }
    ensures visit { own_records ⟦<Visit as AsnType>⟧.meaning visit.now ≡ visit_records visit.now }
    ensures envelope { own_records ⟦<Envelope as AsnType>⟧.meaning envelope.now ≡
        envelope_records envelope.now }
    ensures labelled { own_records ⟦<Labelled as AsnType>⟧.meaning labelled.now ≡
        labelled_records labelled.now }
    ensures settings { own_records ⟦<Settings as AsnType>⟧.meaning settings.now ≡
        settings_records settings.now }
{}

/// A law of the SET types: what a value of each is to every codec, its components in the order of the definition.
pub fn sets_have_their_records(badge: &Badge, ticket: &Ticket, gauge: &Gauge)
    ensures badge { own_records ⟦<Badge as AsnType>⟧.meaning badge.now ≡ badge_records badge.now }
    ensures ticket { own_records ⟦<Ticket as AsnType>⟧.meaning ticket.now ≡
        ticket_records ticket.now }
    ensures gauge { own_records ⟦<Gauge as AsnType>⟧.meaning gauge.now ≡ gauge_records gauge.now }
{}

/// A law of the other types: what each alternative of a CHOICE, each item of an ENUMERATED type and each plate is to every codec.
pub fn alternatives_and_items_have_their_records(
    shape: &Shape,
    corner: &Corner,
    color: Color,
    plate: &Plate,
)
    ensures shape { own_records ⟦<Shape as AsnType>⟧.meaning shape.now ≡ shape_records shape.now }
    ensures corner { own_records ⟦<Corner as AsnType>⟧.meaning corner.now ≡
        corner_records corner.now }
    ensures color { own_records ⟦<Color as AsnType>⟧.meaning color ≡ color_records color }
    ensures plate { own_records ⟦<Plate as AsnType>⟧.meaning plate.now ≡ plate_records plate.now }
{}

/// A law of a `Pair`, whatever its types: what each is to every codec.
pub fn pairs_have_their_records<T: AsnType, U: AsnType>(pair: &Pair<T, U>)
    ensures { own_records ⟦<Pair<T, U> as AsnType>⟧.meaning pair.now ≡
        pair_records (rows ⟦<Pair<T, U> as FieldTable>⟧.components) T.meaning U.meaning
        pair.now.first pair.now.second }
{}
