//! Components that no type can have.
ghost use Rattle.std.specs.Prelude.{[], ◌∷◌};
ghost use Rattle.asn1_model.specs.Meaning.{IsWellTagged};
ghost use Rattle.asn1_model.specs.Tags.{context};
ghost use Rattle.asn1_components.specs.Components.{extensible_sequence, extensible_set, sequence, set};
ghost use Rattle.test_types.specs.ComponentExamples.{added_default_b, default_b, in_group, optional_a, required_b, type_of};

/// No type of these components is well tagged: the tag of a component that may be absent is that of the next, also
/// inside a group; two components of a SET share a tag, also inside a group; an addition is always there; a group is a SET.
/// With an addition that has a default one is.
fn ambiguous_is_not_well_tagged()
    ensures sequence { ¬ IsWellTagged (type_of (sequence (
        optional_a (context 0) ∷ required_b (context 0) ∷ []))) }
    ensures set { ¬ IsWellTagged (type_of (set (
        required_b (context 0) ∷ optional_a (context 0) ∷ []))) }
    ensures addition { ¬ IsWellTagged (type_of (extensible_sequence
        (optional_a (context 0) ∷ []) (required_b (context 1) ∷ []))) }
    ensures in_group { ¬ IsWellTagged (type_of (extensible_sequence [] (in_group (
        sequence (optional_a (context 0) ∷ required_b (context 0) ∷ []))))) }
    ensures group_in_set { ¬ IsWellTagged (type_of (extensible_set [] (in_group (
        sequence (required_b (context 0) ∷ optional_a (context 0) ∷ []))))) }
    ensures set_as_group { ¬ IsWellTagged (type_of (extensible_sequence [] (in_group (
        set (required_b (context 0) ∷ []))))) }
    ensures root_word_among_additions { ¬ IsWellTagged (type_of (
        extensible_sequence [] (default_b (context 1) ∷ []))) }
    ensures addition_in_the_root { ¬ IsWellTagged (type_of (
        sequence (added_default_b (context 1) ∷ []))) }
    ensures default { IsWellTagged (type_of (
        extensible_sequence [] (added_default_b (context 1) ∷ []))) }
{}
