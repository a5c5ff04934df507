//! Controls (RFC 4511, 4.1.11).
ghost use Rattle.std.specs.Prelude.{◌≡◌, ◌++◌, OnOk};
ghost use Rattle.std.specs.List.{flat_map};
ghost use Rattle.std.specs.String.{string_bytes};
ghost use Rattle.asn1_ldap_text.specs.Controls.{control_line, controls_lines, critical_text, criticality_text};

use crate::lengths::push_optional_length;
use crate::strings::push_word;
use asn1_ldap::Control;
use std::alloc::AllocError;

/// Appends a line for each control, if there are any.
pub(crate) fn push_controls(
    text: &mut String,
    controls: &Option<Vec<Control>>,
) -> Result<(), AllocError>
    ensures { OnOk result (string_bytes text.new ≡
        string_bytes text.old ++ controls_lines controls.now) }
{
    match controls {
        Some(controls) => push_each_control(text, controls.as_slice()),
        None => Ok(()),
    }
}

/// Appends a line for each control.
fn push_each_control(text: &mut String, controls: &[Control]) -> Result<(), AllocError>
    ensures { OnOk result (string_bytes text.new ≡
        string_bytes text.old ++ flat_map control_line controls.now) }
{
    for control in controls {
        push_control(text, control)?;
    }
    Ok(())
}

/// Appends the line of a control: its kind, whether it is critical, and the length of its value.
fn push_control(text: &mut String, control: &Control) -> Result<(), AllocError>
    ensures { OnOk result (string_bytes text.new ≡
        string_bytes text.old ++ control_line control.now) }
{
    text.push_str("  control ")?;
    push_word(text, control.control_type.as_slice())?;
    push_criticality(text, control)?;
    text.push_str("\n")
}

/// Appends whether a control is critical, and the length of its value.
fn push_criticality(text: &mut String, control: &Control) -> Result<(), AllocError>
    ensures { OnOk result (string_bytes text.new ≡
        string_bytes text.old ++ criticality_text control.now) }
{
    push_critical(text, control.criticality)?;
    push_optional_length(text, ", value", &control.control_value)
}

/// Appends whether a control is critical.
fn push_critical(text: &mut String, is_critical: bool) -> Result<(), AllocError>
    ensures { OnOk result (string_bytes text.new ≡
        string_bytes text.old ++ critical_text is_critical) }
{
    if is_critical {
        return text.push_str(", critical");
    }
    Ok(())
}
