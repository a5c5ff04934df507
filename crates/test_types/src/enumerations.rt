//! An ENUMERATED type with a value after the extension marker.
ghost use Rattle.std.specs.Prelude.{◌≡◌};
ghost use Rattle.asn1_components.specs.Labels.{labels_of};
ghost use Rattle.test_types.specs.EnumerationExamples.{color_labels};

use asn1_components::{Enumerated, EnumeratedItems, EnumeratedTable};
use asn1_samples::Color;

/// The labels beside a number: those of the root, and those after the extension marker.
fn labels_of_colors()
    ensures { labels_of ⟦<Color as EnumeratedItems>⟧.enumeration ≡ color_labels }
{}

/// Whether the color has that number and that name, and is found by each of them.
fn is_found(color: Color, number: isize, name: &str) -> bool {
    color.discriminant() == number
        && color.identifier() == name
        && Color::from_discriminant(number) == Some(color)
        && Color::from_identifier(name) == Some(color)
}

#[test]
fn colors_are_found_by_number_and_name(rt: HostRuntime) {
    assert!(rt; is_found(Color::Green, 1, "green") && is_found(Color::Blue, 5, "blue"));
    assert!(rt; Color::from_discriminant(2).is_none() && Color::from_identifier("redd").is_none());
    assert!(rt; Color::Blue.enumeration_index() == 0 && Color::Green.enumeration_index() == 1);
    assert!(rt; Color::Blue.is_extended_variant() && !Color::Green.is_extended_variant());
}

#[test]
fn the_table_of_colors_has_its_rows(rt: HostRuntime) {
    assert!(rt; Color::root_count() == 2 && Color::added_count() == Some(1));
    assert!(rt; Color::root_number(1) == Some(1) && Color::added_number(0) == Some(5));
    assert!(rt; Color::root_index(1) == Some(1) && Color::added_index(5) == Some(0));
    assert!(rt; Color::name_of_number(5) == Some("blue"));
    assert!(rt; Color::number_of_name("green") == Some(1));
    let mut numbers = Color::extended_discriminants().unwrap();
    assert!(rt; numbers.next() == Some((Color::Blue, 5)) && numbers.next().is_none());
}
