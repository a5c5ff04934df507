//! The header for C and C++, in templates.
use crate::modules::ModuleTemplates;

/// The header.
pub(crate) const TEMPLATES: ModuleTemplates = ModuleTemplates {
    head: "/* Octets of values of the types of @crate@, for C and C++: lib@crate@_c.a. fan_calls.h has the statuses and what each call asks of its
 * caller. For each type there are:
 *
 * - TYPE_check: FAN_OK if the octets are the DER of a value; those inside an open type are one element that keeps the same rules.
 *   FAN_FAULT if not: *position is the octet, if that is known, and else 0, and the text says why. FAN_ROOM: the octets are at fault too,
 *   *position is as with FAN_FAULT, and the text needs *size octets. FAN_MEMORY, FAN_DEEP.
 * - TYPE_der, TYPE_text, TYPE_json: the value whose BER the octets are as DER, in X.680's notation, and as JSON in one line, the last two
 *   with a line feed at the end. FAN_FAULT: the octets are the BER of no value, or it cannot be written. FAN_ROOM, FAN_MEMORY, FAN_DEEP.
 *
 * FAN_DEEP: the scopes of the value, or the elements that a check looks into, are nested more than 64 deep. */
#ifndef FAN_TYPES_@crate@_H
#define FAN_TYPES_@crate@_H

#include \"fan_calls.h\"

#ifdef __cplusplus
extern \"C\" {
#endif
",
    declaration: "
/* @name@ */
int32_t @crate@_@function@_check(const uint8_t *octets, size_t octets_length, size_t *position, uint8_t *text, size_t text_length,
    size_t *size);
int32_t @crate@_@function@_der(const uint8_t *octets, size_t octets_length, uint8_t *out, size_t out_length, size_t *size);
int32_t @crate@_@function@_text(const uint8_t *octets, size_t octets_length, uint8_t *out, size_t out_length, size_t *size);
int32_t @crate@_@function@_json(const uint8_t *octets, size_t octets_length, uint8_t *out, size_t out_length, size_t *size);
",
    middle: "",
    definition: "",
    end: "
#ifdef __cplusplus
}
#endif

#endif
",
};
