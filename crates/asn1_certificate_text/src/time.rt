//! Times.
ghost use Rattle.asn1_certificate_text.specs.Times.{time_text};

use crate::append_text::AppendText;
use crate::escapes::push_visible;
use crate::moment::Moment;
use std::alloc::AllocError;
use std::fmt::Write;

/// A time of a certificate.
#[derive(Drop)]
pub enum ShownTime {
    /// A moment.
    Moment(Moment),
    /// The characters of a text that is no time of RFC 5280.
    Text(Vec<char>),
}

impl AppendText for ShownTime {
    ghost text_of = { time_text };

    fn append_to(&self, text: &mut String) -> Result<(), AllocError> {
        match self {
            ShownTime::Moment(moment) => write!(text, "{moment}"),
            ShownTime::Text(characters) => {
                push_visible(text, characters.as_slice())?;
                text.push_str(" (no time of RFC 5280)")
            }
        }
    }
}
