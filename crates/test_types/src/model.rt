//! The values of the definitions of records, each written out by hand.
//!
//! The clauses of the functions without a body are worked examples: the prover computes the definitions on them.
ghost use Rattle.std.specs.Prelude.{◌≡◌, ℕ, Bool, true, false, List, [], ◌∷◌, ◌++◌, None, Some, codes};
ghost use Rattle.asn1_model.specs.Composites.{sequence_records, default_records, group_records, option_records, explicit_tag_records};
ghost use Rattle.asn1_model.specs.ConstraintSets.{unconstrained, size_of};
ghost use Rattle.asn1_model.specs.Orders.{SameRecord};
ghost use Rattle.asn1_model.specs.Records.{Record, scalar, open_type, presence_mark, holding, explicit_tag, alternative, in_root, present, absent, group_start, group_absent, group_end, null, highest};
ghost use Rattle.asn1_model.specs.RecordTables.{no_table};
ghost use Rattle.asn1_model.specs.Tags.{universal, context, CHOICE, every, among, only, first_tags};
ghost use Rattle.asn1_model.specs.WellFormed.{AreWellFormed};
ghost use Rattle.test_types.specs.RecordExamples.{choice_of_null, chosen_null, sequence_with, set_of_with, set_with};

/// A group whose components are marks alone is absent.
fn empty_group()
    ensures { group_records no_table (Some (option_records in_root (context 3) None ++
        option_records in_root (context 4) None)) ≡ presence_mark (group_absent no_table) ∷ [] }
{}

/// A component that is its DEFAULT is the mark that it is absent; another is the mark that it is present, and its records.
fn defaults()
    ensures default { (rs : List Record) → default_records in_root true (context 0) rs ≡
        presence_mark (absent in_root (context 0)) ∷ [] }
    ensures other { (rs : List Record) → default_records in_root false (context 0) rs ≡
        presence_mark (present in_root (context 0)) ∷ rs }
{}

/// A CHOICE of a NULL, untagged and under Context 1: untagged it has the constraints and the name that it is given, and
/// under a tag its own within.
fn choice()
    ensures untagged { choice_of_null CHOICE (Some (codes "n")) ≡
        chosen_null (size_of 2) (codes "n") ∷ [] }
    ensures unnamed { choice_of_null CHOICE None ≡ chosen_null (size_of 2) (codes "C") ∷ [] }
    ensures tagged { choice_of_null (context 1) (Some (codes "n")) ≡
        holding (explicit_tag (context 1) (Some (codes "n")))
        (chosen_null (size_of 1) (codes "C") ∷ []) ∷ [] }
{}

/// The order means nothing in a SET and in a SET OF, also within other records, and something in a SEQUENCE.
fn sameness()
    ensures set { (r s : Record) → SameRecord (set_with (r ∷ s ∷ [])) (set_with (s ∷ r ∷ [])) }
    ensures inside { (r s : Record) → SameRecord (sequence_with (set_of_with (r ∷ s ∷ []) ∷ []))
        (sequence_with (set_of_with (s ∷ r ∷ []) ∷ [])) }
    ensures sequence { ¬ SameRecord
        (sequence_with (open_type None [] ∷ presence_mark (group_start no_table) ∷ []))
        (sequence_with (presence_mark (group_start no_table) ∷ open_type None [] ∷ [])) }
    ensures contents { ¬ SameRecord (open_type None []) (open_type None (0 ∷ [])) }
{}

/// Heights: of contents and marks 0, of a scope one more than what is in it, and 1 where nothing does.
fn heights()
    ensures nothing { highest [] ≡ 0 }
    ensures flat { highest (presence_mark (group_start no_table) ∷ open_type None [] ∷
        presence_mark group_end ∷ []) ≡ 0 }
    ensures empty { highest (sequence_records (universal 16) no_table None []) ≡ 1 }
    ensures inner { highest (presence_mark (present in_root (context 0)) ∷
        explicit_tag_records (context 0) None (sequence_records (universal 16) no_table None
        (presence_mark (absent in_root (context 1)) ∷ []))) ≡ 2 }
{}

/// First tags: marks are passed over, and a value that is given as its bytes may begin with every tag.
fn firsts()
    ensures nothing { first_tags (presence_mark (absent in_root (context 0)) ∷
        presence_mark (group_absent no_table) ∷ []) ≡
        among [] }
    ensures one { first_tags (presence_mark (group_start no_table) ∷
        presence_mark (present in_root (context 3)) ∷
        scalar (context 3) unconstrained None null ∷ open_type None [] ∷ []) ≡ only (context 3) }
    ensures any { first_tags (presence_mark (present in_root CHOICE) ∷ open_type None [] ∷ []) ≡
        every }
    ensures scope { first_tags (presence_mark (absent in_root (context 0)) ∷
        sequence_with (presence_mark (group_absent no_table) ∷ []) ∷ []) ≡ only (universal 16) }
    ensures under_a_tag { first_tags (presence_mark (present in_root (context 0)) ∷
        explicit_tag_records (context 0) None (sequence_records (universal 16) no_table None
        (presence_mark (group_absent no_table) ∷ []))) ≡ only (context 0) }
    ensures chosen { first_tags (holding (alternative (context 2) unconstrained no_table None) [] ∷
        []) ≡ only (context 2) }
{}

/// Well-formed records: an open type holds bytes that the codec accepts, and an alternative the first tag of what is inside, also
/// within other records. Of contents and presence marks nothing is asked.
fn well_formed_records()
    ensures contents { (accepts : List ℕ → Bool) →
        AreWellFormed accepts (scalar (context 0) unconstrained None null ∷
        presence_mark (group_absent no_table) ∷ []) }
    ensures taken { AreWellFormed (λ bytes. true) (open_type None (0 ∷ []) ∷ []) }
    ensures not_taken { ¬ AreWellFormed (λ bytes. false)
        (explicit_tag_records (context 0) None (open_type None (0 ∷ []) ∷ [])) }
    ensures chosen { (accepts : List ℕ → Bool) →
        AreWellFormed accepts (holding (alternative (context 2) unconstrained no_table None)
        (scalar (context 2) unconstrained None null ∷ []) ∷ []) }
    ensures another { (accepts : List ℕ → Bool) →
        ¬ AreWellFormed accepts (holding (alternative (context 1) unconstrained no_table None)
        (scalar (context 2) unconstrained None null ∷ []) ∷ []) }
{}
