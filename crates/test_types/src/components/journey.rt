//! Journey ::= SEQUENCE { id INTEGER (0..255), ..., [[ from [0] BOOLEAN OPTIONAL, [[ over [1] BOOLEAN OPTIONAL ]] ]] }: a
//! group inside a group, whose absent components go on past its end.
ghost use Rattle.std.specs.Prelude.{◌≡◌};
ghost use Rattle.asn1_model.specs.Meaning.{IsWellTagged, own_records};
ghost use Rattle.test_types.specs.Journeys.{journey, journey_records, journey_type};

/// The tags of both groups are distinct. The records are those of a journey whose inner group is absent, beside the tables of
/// the journey and of its outer group.
fn journeys()
    ensures distinct { IsWellTagged journey_type }
    ensures outer { own_records journey_type journey ≡ journey_records }
{}
