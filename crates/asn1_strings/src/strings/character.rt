//! Character strings (X.680, 41). Those with a table of characters hold no others; a unit of theirs is a
//! character's code in ASCII.
use crate::kind::{Bmp, General, Graphic, Ia5, Numeric, Printable, Teletex, Visible};
use crate::strings::alphabet_string::AlphabetString;
use crate::strings::unit_string::UnitString;

/// A UTF8String: any text.
pub type Utf8String = String;

/// A VisibleString: spaces and the graphic characters of ASCII.
pub type VisibleString = AlphabetString<u8, Visible>;

/// An IA5String: the characters of ASCII, control characters among them.
pub type Ia5String = AlphabetString<u8, Ia5>;

/// A NumericString: spaces and digits.
pub type NumericString = AlphabetString<u8, Numeric>;

/// A PrintableString: ASCII letters, digits, spaces and `'()+,-./:=?`.
pub type PrintableString = AlphabetString<u8, Printable>;

/// A GeneralString: any octets.
pub type GeneralString = UnitString<u8, General>;

/// A GraphicString: any octets.
pub type GraphicString = UnitString<u8, Graphic>;

/// A TeletexString: any units of 32 bits.
pub type TeletexString = UnitString<u32, Teletex>;

/// A BMPString: any units of 16 bits.
pub type BmpString = UnitString<u16, Bmp>;
