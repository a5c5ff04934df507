//! The type of `resultCode` in `LdapResult`.
//!
//! ```text
//! resultCode ENUMERATED {
//!     success(0),
//!     operationsError(1),
//!     protocolError(2),
//!     timeLimitExceeded(3),
//!     sizeLimitExceeded(4),
//!     compareFalse(5),
//!     compareTrue(6),
//!     authMethodNotSupported(7),
//!     strongerAuthRequired(8),
//!     referral(10),
//!     adminLimitExceeded(11),
//!     unavailableCriticalExtension(12),
//!     confidentialityRequired(13),
//!     saslBindInProgress(14),
//!     noSuchAttribute(16),
//!     undefinedAttributeType(17),
//!     inappropriateMatching(18),
//!     constraintViolation(19),
//!     attributeOrValueExists(20),
//!     invalidAttributeSyntax(21),
//!     noSuchObject(32),
//!     aliasProblem(33),
//!     invalidDNSyntax(34),
//!     aliasDereferencingProblem(36),
//!     inappropriateAuthentication(48),
//!     invalidCredentials(49),
//!     insufficientAccessRights(50),
//!     busy(51),
//!     unavailable(52),
//!     unwillingToPerform(53),
//!     loopDetect(54),
//!     namingViolation(64),
//!     objectClassViolation(65),
//!     notAllowedOnNonLeaf(66),
//!     notAllowedOnRDN(67),
//!     entryAlreadyExists(68),
//!     objectClassModsProhibited(69),
//!     affectsMultipleDSAs(71),
//!     other(80),
//!     ...,
//!     lcupResourcesExhausted(113),
//!     lcupSecurityViolation(114),
//!     lcupInvalidData(115),
//!     lcupUnsupportedScheme(116),
//!     lcupReloadRequired(117),
//!     canceled(118),
//!     noSuchOperation(119),
//!     tooLate(120),
//!     cannotCancel(121),
//!     assertionFailed(122),
//!     authorizationDenied(123),
//!     e-syncRefreshRequired(4096),
//!     noOperation(16654)
//! }
//! ```
ghost use Rattle.std.specs.Prelude.{codes, refl};
ghost use Rattle.asn1_schema.specs.Words.{IsWellTagged, by_test, enumeration_agrees, enumeration_type, extensible_enumeration, items_of};
ghost use Rattle.asn1_ldap.specs.declared.ldap_result_result_code.LdapResultResultCode.TheVariants.{Success, OperationsError, ProtocolError, TimeLimitExceeded, SizeLimitExceeded, CompareFalse, CompareTrue, AuthMethodNotSupported, StrongerAuthRequired, Referral, AdminLimitExceeded, UnavailableCriticalExtension, ConfidentialityRequired, SaslBindInProgress, NoSuchAttribute, UndefinedAttributeType, InappropriateMatching, ConstraintViolation, AttributeOrValueExists, InvalidAttributeSyntax, NoSuchObject, AliasProblem, InvalidDnSyntax, AliasDereferencingProblem, InappropriateAuthentication, InvalidCredentials, InsufficientAccessRights, Busy, Unavailable, UnwillingToPerform, LoopDetect, NamingViolation, ObjectClassViolation, NotAllowedOnNonLeaf, NotAllowedOnRdn, EntryAlreadyExists, ObjectClassModsProhibited, AffectsMultipleDsas, Other, LcupResourcesExhausted, LcupSecurityViolation, LcupInvalidData, LcupUnsupportedScheme, LcupReloadRequired, Canceled, NoSuchOperation, TooLate, CannotCancel, AssertionFailed, AuthorizationDenied, ESyncRefreshRequired, NoOperation};
ghost use Rattle.asn1_model.specs.DistinctSets.{SetsAreDistinct};
ghost use Rattle.asn1_model.specs.WrittenAlike.{AreWrittenAlike};

use asn1_schema::{
    AsnType, Constraints, Decode, DecodeError, Decoder, Encode, EncodeError, Encoder, Enumerated,
    EnumeratedItems, EnumerationItem, Identifier, Tag, TypeTable,
};

/// The type of `resultCode` in `LdapResult`.
#[derive(Clone, Copy, PartialEq, Eq, Debug)]
pub enum LdapResultResultCode {
    /// `success(0)`
    Success,
    /// `operationsError(1)`
    OperationsError,
    /// `protocolError(2)`
    ProtocolError,
    /// `timeLimitExceeded(3)`
    TimeLimitExceeded,
    /// `sizeLimitExceeded(4)`
    SizeLimitExceeded,
    /// `compareFalse(5)`
    CompareFalse,
    /// `compareTrue(6)`
    CompareTrue,
    /// `authMethodNotSupported(7)`
    AuthMethodNotSupported,
    /// `strongerAuthRequired(8)`
    StrongerAuthRequired,
    /// `referral(10)`
    Referral,
    /// `adminLimitExceeded(11)`
    AdminLimitExceeded,
    /// `unavailableCriticalExtension(12)`
    UnavailableCriticalExtension,
    /// `confidentialityRequired(13)`
    ConfidentialityRequired,
    /// `saslBindInProgress(14)`
    SaslBindInProgress,
    /// `noSuchAttribute(16)`
    NoSuchAttribute,
    /// `undefinedAttributeType(17)`
    UndefinedAttributeType,
    /// `inappropriateMatching(18)`
    InappropriateMatching,
    /// `constraintViolation(19)`
    ConstraintViolation,
    /// `attributeOrValueExists(20)`
    AttributeOrValueExists,
    /// `invalidAttributeSyntax(21)`
    InvalidAttributeSyntax,
    /// `noSuchObject(32)`
    NoSuchObject,
    /// `aliasProblem(33)`
    AliasProblem,
    /// `invalidDNSyntax(34)`
    InvalidDnSyntax,
    /// `aliasDereferencingProblem(36)`
    AliasDereferencingProblem,
    /// `inappropriateAuthentication(48)`
    InappropriateAuthentication,
    /// `invalidCredentials(49)`
    InvalidCredentials,
    /// `insufficientAccessRights(50)`
    InsufficientAccessRights,
    /// `busy(51)`
    Busy,
    /// `unavailable(52)`
    Unavailable,
    /// `unwillingToPerform(53)`
    UnwillingToPerform,
    /// `loopDetect(54)`
    LoopDetect,
    /// `namingViolation(64)`
    NamingViolation,
    /// `objectClassViolation(65)`
    ObjectClassViolation,
    /// `notAllowedOnNonLeaf(66)`
    NotAllowedOnNonLeaf,
    /// `notAllowedOnRDN(67)`
    NotAllowedOnRdn,
    /// `entryAlreadyExists(68)`
    EntryAlreadyExists,
    /// `objectClassModsProhibited(69)`
    ObjectClassModsProhibited,
    /// `affectsMultipleDSAs(71)`
    AffectsMultipleDsas,
    /// `other(80)`
    Other,
    /// `lcupResourcesExhausted(113)`
    LcupResourcesExhausted,
    /// `lcupSecurityViolation(114)`
    LcupSecurityViolation,
    /// `lcupInvalidData(115)`
    LcupInvalidData,
    /// `lcupUnsupportedScheme(116)`
    LcupUnsupportedScheme,
    /// `lcupReloadRequired(117)`
    LcupReloadRequired,
    /// `canceled(118)`
    Canceled,
    /// `noSuchOperation(119)`
    NoSuchOperation,
    /// `tooLate(120)`
    TooLate,
    /// `cannotCancel(121)`
    CannotCancel,
    /// `assertionFailed(122)`
    AssertionFailed,
    /// `authorizationDenied(123)`
    AuthorizationDenied,
    /// `e-syncRefreshRequired(4096)`
    ESyncRefreshRequired,
    /// `noOperation(16654)`
    NoOperation,
}

const ROOT: &[EnumerationItem<LdapResultResultCode>] = &[
    (LdapResultResultCode::Success, 0, "success"),
    (LdapResultResultCode::OperationsError, 1, "operationsError"),
    (LdapResultResultCode::ProtocolError, 2, "protocolError"),
    (
        LdapResultResultCode::TimeLimitExceeded,
        3,
        "timeLimitExceeded",
    ),
    (
        LdapResultResultCode::SizeLimitExceeded,
        4,
        "sizeLimitExceeded",
    ),
    (LdapResultResultCode::CompareFalse, 5, "compareFalse"),
    (LdapResultResultCode::CompareTrue, 6, "compareTrue"),
    (
        LdapResultResultCode::AuthMethodNotSupported,
        7,
        "authMethodNotSupported",
    ),
    (
        LdapResultResultCode::StrongerAuthRequired,
        8,
        "strongerAuthRequired",
    ),
    (LdapResultResultCode::Referral, 10, "referral"),
    (
        LdapResultResultCode::AdminLimitExceeded,
        11,
        "adminLimitExceeded",
    ),
    (
        LdapResultResultCode::UnavailableCriticalExtension,
        12,
        "unavailableCriticalExtension",
    ),
    (
        LdapResultResultCode::ConfidentialityRequired,
        13,
        "confidentialityRequired",
    ),
    (
        LdapResultResultCode::SaslBindInProgress,
        14,
        "saslBindInProgress",
    ),
    (LdapResultResultCode::NoSuchAttribute, 16, "noSuchAttribute"),
    (
        LdapResultResultCode::UndefinedAttributeType,
        17,
        "undefinedAttributeType",
    ),
    (
        LdapResultResultCode::InappropriateMatching,
        18,
        "inappropriateMatching",
    ),
    (
        LdapResultResultCode::ConstraintViolation,
        19,
        "constraintViolation",
    ),
    (
        LdapResultResultCode::AttributeOrValueExists,
        20,
        "attributeOrValueExists",
    ),
    (
        LdapResultResultCode::InvalidAttributeSyntax,
        21,
        "invalidAttributeSyntax",
    ),
    (LdapResultResultCode::NoSuchObject, 32, "noSuchObject"),
    (LdapResultResultCode::AliasProblem, 33, "aliasProblem"),
    (LdapResultResultCode::InvalidDnSyntax, 34, "invalidDNSyntax"),
    (
        LdapResultResultCode::AliasDereferencingProblem,
        36,
        "aliasDereferencingProblem",
    ),
    (
        LdapResultResultCode::InappropriateAuthentication,
        48,
        "inappropriateAuthentication",
    ),
    (
        LdapResultResultCode::InvalidCredentials,
        49,
        "invalidCredentials",
    ),
    (
        LdapResultResultCode::InsufficientAccessRights,
        50,
        "insufficientAccessRights",
    ),
    (LdapResultResultCode::Busy, 51, "busy"),
    (LdapResultResultCode::Unavailable, 52, "unavailable"),
    (
        LdapResultResultCode::UnwillingToPerform,
        53,
        "unwillingToPerform",
    ),
    (LdapResultResultCode::LoopDetect, 54, "loopDetect"),
    (LdapResultResultCode::NamingViolation, 64, "namingViolation"),
    (
        LdapResultResultCode::ObjectClassViolation,
        65,
        "objectClassViolation",
    ),
    (
        LdapResultResultCode::NotAllowedOnNonLeaf,
        66,
        "notAllowedOnNonLeaf",
    ),
    (LdapResultResultCode::NotAllowedOnRdn, 67, "notAllowedOnRDN"),
    (
        LdapResultResultCode::EntryAlreadyExists,
        68,
        "entryAlreadyExists",
    ),
    (
        LdapResultResultCode::ObjectClassModsProhibited,
        69,
        "objectClassModsProhibited",
    ),
    (
        LdapResultResultCode::AffectsMultipleDsas,
        71,
        "affectsMultipleDSAs",
    ),
    (LdapResultResultCode::Other, 80, "other"),
];

const ADDITIONS: &[EnumerationItem<LdapResultResultCode>] = &[
    (
        LdapResultResultCode::LcupResourcesExhausted,
        113,
        "lcupResourcesExhausted",
    ),
    (
        LdapResultResultCode::LcupSecurityViolation,
        114,
        "lcupSecurityViolation",
    ),
    (
        LdapResultResultCode::LcupInvalidData,
        115,
        "lcupInvalidData",
    ),
    (
        LdapResultResultCode::LcupUnsupportedScheme,
        116,
        "lcupUnsupportedScheme",
    ),
    (
        LdapResultResultCode::LcupReloadRequired,
        117,
        "lcupReloadRequired",
    ),
    (LdapResultResultCode::Canceled, 118, "canceled"),
    (
        LdapResultResultCode::NoSuchOperation,
        119,
        "noSuchOperation",
    ),
    (LdapResultResultCode::TooLate, 120, "tooLate"),
    (LdapResultResultCode::CannotCancel, 121, "cannotCancel"),
    (
        LdapResultResultCode::AssertionFailed,
        122,
        "assertionFailed",
    ),
    (
        LdapResultResultCode::AuthorizationDenied,
        123,
        "authorizationDenied",
    ),
    (
        LdapResultResultCode::ESyncRefreshRequired,
        4096,
        "e-syncRefreshRequired",
    ),
    (LdapResultResultCode::NoOperation, 16654, "noOperation"),
];

impl EnumeratedItems for LdapResultResultCode {
    ghost use Rattle.asn1_ldap.specs.declared.ldap_result_result_code.TheConstants.{ADDITIONS, ROOT};

    ghost enumeration = { extensible_enumeration (items_of ROOT.now) (items_of ADDITIONS.now) };

    fn items() -> &'static [EnumerationItem<Self>] {
        ROOT
    }

    fn added_items() -> Option<&'static [EnumerationItem<Self>]> {
        Some(ADDITIONS)
    }
}

impl AsnType for LdapResultResultCode {
    ghost meaning = { enumeration_type (codes "resultCode") ⟦<LdapResultResultCode as EnumeratedItems>⟧.enumeration ⟦<LdapResultResultCode as PartialEq>⟧.eq };

    fn table() -> TypeTable {
        TypeTable::new(Tag::ENUMERATED, Identifier(Some("resultCode")))
    }

    fn is_present(&self) -> bool {
        true
    }
}

impl Enumerated for LdapResultResultCode {
    ghost complete = { elim [ Success ↦ refl | OperationsError ↦ refl | ProtocolError ↦ refl | TimeLimitExceeded ↦ refl | SizeLimitExceeded ↦ refl | CompareFalse ↦ refl | CompareTrue ↦ refl | AuthMethodNotSupported ↦ refl | StrongerAuthRequired ↦ refl | Referral ↦ refl | AdminLimitExceeded ↦ refl | UnavailableCriticalExtension ↦ refl | ConfidentialityRequired ↦ refl | SaslBindInProgress ↦ refl | NoSuchAttribute ↦ refl | UndefinedAttributeType ↦ refl | InappropriateMatching ↦ refl | ConstraintViolation ↦ refl | AttributeOrValueExists ↦ refl | InvalidAttributeSyntax ↦ refl | NoSuchObject ↦ refl | AliasProblem ↦ refl | InvalidDnSyntax ↦ refl | AliasDereferencingProblem ↦ refl | InappropriateAuthentication ↦ refl | InvalidCredentials ↦ refl | InsufficientAccessRights ↦ refl | Busy ↦ refl | Unavailable ↦ refl | UnwillingToPerform ↦ refl | LoopDetect ↦ refl | NamingViolation ↦ refl | ObjectClassViolation ↦ refl | NotAllowedOnNonLeaf ↦ refl | NotAllowedOnRdn ↦ refl | EntryAlreadyExists ↦ refl | ObjectClassModsProhibited ↦ refl | AffectsMultipleDsas ↦ refl | Other ↦ refl | LcupResourcesExhausted ↦ refl | LcupSecurityViolation ↦ refl | LcupInvalidData ↦ refl | LcupUnsupportedScheme ↦ refl | LcupReloadRequired ↦ refl | Canceled ↦ refl | NoSuchOperation ↦ refl | TooLate ↦ refl | CannotCancel ↦ refl | AssertionFailed ↦ refl | AuthorizationDenied ↦ refl | ESyncRefreshRequired ↦ refl | NoOperation ↦ refl ] };

    ghost lawful = { by_test refl };

    ghost agrees = { enumeration_agrees };
}

/// A `LdapResultResultCode` can be inside other types.
pub fn ldap_result_result_code_is_well_tagged()
    ensures { IsWellTagged ⟦<LdapResultResultCode as AsnType>⟧.meaning }
{}

/// Equal values are written alike, and in each value the components of a SET have distinct tags. With `ldap_result_result_code_is_well_tagged`
/// it follows that the DER of a value is its only spelling (`well_tagged_types_have_one_spelling` of `asn1_der`).
pub fn ldap_result_result_code_has_one_spelling()
    ensures alike { AreWrittenAlike ⟦<LdapResultResultCode as AsnType>⟧.meaning
        ⟦<LdapResultResultCode as PartialEq>⟧.eq }
    ensures distinct { SetsAreDistinct ⟦<LdapResultResultCode as AsnType>⟧.meaning }
{}

impl Encode for LdapResultResultCode {
    fn encode_with_tag_and_constraints<E: Encoder>(
        &self,
        encoder: &mut E,
        tag: Tag,
        _constraints: &Constraints<'_>,
        name: Identifier,
    ) -> Result<(), EncodeError> {
        encoder.encode_enumerated(tag, self, name)
    }
}

impl Decode for LdapResultResultCode {
    fn decode_with_tag_and_constraints<D: Decoder>(
        decoder: &mut D,
        tag: Tag,
        _constraints: &Constraints<'_>,
    ) -> Result<Self, DecodeError> {
        decoder.decode_enumerated(tag)
    }
}
