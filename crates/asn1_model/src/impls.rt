//! The tables and the meaning of the types of the lower layers and of the language's own.

mod alphabet_string;
mod array;
mod bit_vec;
mod boolean;
mod boxed;
mod built_in_integers;
mod cow;
mod integer;
mod limited_integer;
mod null;
mod object_identifier;
mod option;
mod phantom;
mod reference;
mod slice;
mod str;
mod unit_string;
mod utf8_string;
mod vec;
