//! The module for Python, in templates.
use crate::modules::ModuleTemplates;

/// The module.
pub(crate) const TEMPLATES: ModuleTemplates = ModuleTemplates {
    head: "\"\"\"Octets of values of the types of @crate@, by proved code: lib@crate@_c.so beside this file.

For each type `TYPE_check` raises `Fault` unless octets are the DER of a value. `TYPE_der`, `TYPE_text` and `TYPE_json` answer the value whose
BER octets are as DER, in X.680's notation and as JSON, and raise `Fault` of others. Each raises `Deep` if the value is nested
more than 64 deep. ctypes lets other threads run during a call, and calls share nothing.
\"\"\"

import ctypes
from pathlib import Path

_OK, _FAULT, _ROOM, _MEMORY, _DEEP = range(5)
_library = ctypes.CDLL(str(Path(__file__).resolve().parent / \"lib@crate@_c.so\"))
_octets, _size = ctypes.c_char_p, ctypes.c_size_t
_to_size = ctypes.POINTER(_size)


class Fault(ValueError):
    \"\"\"The octets are not what the call reads. A check tells the reason, and the position of the octet, from 0, or 0 if it is unknown.\"\"\"

    def __init__(self, position: int | None = None, cause: str = \"the octets are not what is read\"):
        super().__init__(cause if position is None else f\"{cause}, at octet {position}\")
        self.position, self.cause = position, cause


class Deep(ValueError):
    \"\"\"The value is nested more than 64 deep.\"\"\"


def _call(name, *arguments):
    call = getattr(_library, name)
    call.argtypes, call.restype = (_octets, _size, *arguments, _octets, _size, _to_size), ctypes.c_int32
    return call


def _written(call, octets, room, *arguments):
    while True:
        size, out = _size(), ctypes.create_string_buffer(room)
        status = call(octets, len(octets), *arguments, out, room, size)
        if status == _MEMORY:
            raise MemoryError
        if status == _DEEP:
            raise Deep(\"the value is nested more than 64 deep\")
        if status != _ROOM:
            return status, out.raw[: size.value]
        room = size.value


def _check(name):
    call = _call(name, _to_size)

    def check(octets: bytes) -> None:
        position = _size()
        status, text = _written(call, octets, 120, position)
        if status == _FAULT:
            raise Fault(position.value, text.decode())

    return check


def _conversion(name):
    call = _call(name)

    def convert(octets: bytes) -> bytes:
        status, out = _written(call, octets, 2 * len(octets))
        if status == _FAULT:
            raise Fault
        return out

    return convert


def _text(name):
    convert = _conversion(name)
    return lambda octets: convert(octets).decode()

",
    declaration: "
@function@_check = _check(\"@crate@_@function@_check\")
@function@_der = _conversion(\"@crate@_@function@_der\")
@function@_text = _text(\"@crate@_@function@_text\")
@function@_json = _text(\"@crate@_@function@_json\")
",
    middle: "",
    definition: "",
    end: "",
};
