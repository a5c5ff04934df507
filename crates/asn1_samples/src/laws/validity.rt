//! The valid values of the sample types. Each type's own file states that it is well tagged.
ghost use Rattle.asn1_samples.specs.declared.contact.Contact.{Contact};
ghost use Rattle.asn1_samples.specs.declared.corner.Corner.TheVariants.{Left, Right};
ghost use Rattle.asn1_samples.specs.declared.shape.Shape.TheVariants.{Dot, Inner, Ring};
ghost use Rattle.asn1_samples.specs.declared.color.Color.{Color};
ghost use Rattle.std.specs.Prelude.{◌≡◌, ℕ, Bool, List, None, Some};

use crate::badge::Badge;
use crate::color::Color;
use crate::corner::Corner;
use crate::gauge::Gauge;
use crate::labelled::Labelled;
use crate::notice::Notice;
use crate::person::Person;
use crate::plate::Plate;
use crate::profile::Profile;
use crate::settings::Settings;
use crate::shape::Shape;
use crate::ticket::Ticket;
use crate::visit::Visit;
use asn1_types::AsnType;

/// A law of validity: each value of these types is valid.
pub fn each_value_is_valid(
    person: &Person,
    notice: &Notice,
    labelled: &Labelled,
    settings: &Settings,
    plate: &Plate,
    ticket: &Ticket,
    gauge: &Gauge,
)
    ensures person { (accepts : List ℕ → Bool) →
        ⟦<Person as AsnType>⟧.meaning.IsValid accepts person.now }
    ensures notice { (accepts : List ℕ → Bool) →
        ⟦<Notice as AsnType>⟧.meaning.IsValid accepts notice.now }
    ensures labelled { (accepts : List ℕ → Bool) →
        ⟦<Labelled as AsnType>⟧.meaning.IsValid accepts labelled.now }
    ensures settings { (accepts : List ℕ → Bool) →
        ⟦<Settings as AsnType>⟧.meaning.IsValid accepts settings.now }
    ensures plate { (accepts : List ℕ → Bool) →
        ⟦<Plate as AsnType>⟧.meaning.IsValid accepts plate.now }
    ensures ticket { (accepts : List ℕ → Bool) →
        ⟦<Ticket as AsnType>⟧.meaning.IsValid accepts ticket.now }
    ensures gauge { (accepts : List ℕ → Bool) →
        ⟦<Gauge as AsnType>⟧.meaning.IsValid accepts gauge.now }
    ensures color { (accepts : List ℕ → Bool) (color : Color) →
        ⟦<Color as AsnType>⟧.meaning.IsValid accepts color }
{}

/// A law of validity: each alternative of a corner, and of a shape, is valid, and a badge with each of these shapes.
pub fn each_alternative_is_valid(badge: &Badge)
    ensures left { (accepts : List ℕ → Bool) (b : Bool) →
        ⟦<Corner as AsnType>⟧.meaning.IsValid accepts (Left b) }
    ensures right { (accepts : List ℕ → Bool) (s : List ℕ) →
        ⟦<Corner as AsnType>⟧.meaning.IsValid accepts (Right s) }
    ensures dot { (accepts : List ℕ → Bool) →
        ⟦<Shape as AsnType>⟧.meaning.IsValid accepts (Dot tt) }
    ensures ring { (accepts : List ℕ → Bool) (width : ℕ) →
        ⟦<Shape as AsnType>⟧.meaning.IsValid accepts (Ring width) }
    ensures inner_left { (accepts : List ℕ → Bool) (b : Bool) →
        ⟦<Shape as AsnType>⟧.meaning.IsValid accepts (Inner (Left b)) }
    ensures inner_right { (accepts : List ℕ → Bool) (s : List ℕ) →
        ⟦<Shape as AsnType>⟧.meaning.IsValid accepts (Inner (Right s)) }
    ensures dotted_badge { (accepts : List ℕ → Bool) → badge.now.shape ≡ Dot tt →
        ⟦<Badge as AsnType>⟧.meaning.IsValid accepts badge.now }
    ensures ringed_badge { (accepts : List ℕ → Bool) (width : ℕ) → badge.now.shape ≡ Ring width →
        ⟦<Badge as AsnType>⟧.meaning.IsValid accepts badge.now }
    ensures left_badge { (accepts : List ℕ → Bool) (b : Bool) → badge.now.shape ≡ Inner (Left b) →
        ⟦<Badge as AsnType>⟧.meaning.IsValid accepts badge.now }
    ensures right_badge { (accepts : List ℕ → Bool) (s : List ℕ) → badge.now.shape ≡
        Inner (Right s) →
        ⟦<Badge as AsnType>⟧.meaning.IsValid accepts badge.now }
{}

/// A law of validity: a profile or a visit is valid without the group of additions, and with a group of which a component is
/// there; and with a group of which none is there it is not.
pub fn groups_that_write_a_component_are_valid(profile: &Profile, visit: &Visit)
    ensures profile { (accepts : List ℕ → Bool) → profile.now.contact ≡ None →
        ⟦<Profile as AsnType>⟧.meaning.IsValid accepts profile.now }
    ensures profile_with_phone { (accepts : List ℕ → Bool) (phone : List ℕ) (contact : Contact) →
        contact.phone ≡ Some phone → profile.now.contact ≡ Some contact →
        ⟦<Profile as AsnType>⟧.meaning.IsValid accepts profile.now }
    ensures profile_with_mail { (accepts : List ℕ → Bool) (mail : List ℕ) (contact : Contact) →
        contact.mail ≡ Some mail → profile.now.contact ≡ Some contact →
        ⟦<Profile as AsnType>⟧.meaning.IsValid accepts profile.now }
    ensures profile_with_nothing { (accepts : List ℕ → Bool) →
        profile.now.contact ≡ Some (record { phone = None; mail = None }) →
        ¬ ⟦<Profile as AsnType>⟧.meaning.IsValid accepts profile.now }
    ensures visit { (accepts : List ℕ → Bool) → visit.now.contact ≡ None →
        ⟦<Visit as AsnType>⟧.meaning.IsValid accepts visit.now }
    ensures visit_with_phone { (accepts : List ℕ → Bool) (phone : List ℕ) (contact : Contact) →
        contact.phone ≡ Some phone → visit.now.contact ≡ Some contact →
        ⟦<Visit as AsnType>⟧.meaning.IsValid accepts visit.now }
    ensures visit_with_mail { (accepts : List ℕ → Bool) (mail : List ℕ) (contact : Contact) →
        contact.mail ≡ Some mail → visit.now.contact ≡ Some contact →
        ⟦<Visit as AsnType>⟧.meaning.IsValid accepts visit.now }
    ensures visit_with_nothing { (accepts : List ℕ → Bool) →
        visit.now.contact ≡ Some (record { phone = None; mail = None }) →
        ¬ ⟦<Visit as AsnType>⟧.meaning.IsValid accepts visit.now }
{}
