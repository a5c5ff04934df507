//! What is asked of a codec.
use crate::codec::Codec;
use crate::request::Request;
use std::alloc::Global;

/// As many nested scopes as the other codec needs.
const ENOUGH: usize = usize::MAX;

/// The action of a request.
#[derive(Clone, Copy, Drop)]
pub enum Action {
    /// To read a value from all of the bytes.
    Read,
    /// To read a value from the front of the bytes.
    ReadFront,
    /// To read a value from all of the bytes, if writing it makes the same bytes.
    ReadCanonical,
    /// To read values one after another, as long as writing each makes the same bytes.
    ReadStream,
    /// To write the value that the other codec reads from the bytes.
    Write,
}

impl Action {
    /// The action of this name.
    fn of_name(name: &str) -> Option<Action> {
        match name {
            "read" => Some(Action::Read),
            "front" => Some(Action::ReadFront),
            "canonical" => Some(Action::ReadCanonical),
            "stream" => Some(Action::ReadStream),
            "write" => Some(Action::Write),
            _ => None,
        }
    }
}

/// A request with an action, and with the codec on the other side of the value.
#[derive(Drop)]
pub struct Asked<'a> {
    /// The memory.
    pub alloc: Global,
    /// The request.
    pub request: &'a Request<'a>,
    /// Its action.
    pub action: Action,
    /// The codec on the other side of the value.
    pub other: Codec,
}

impl<'a> Asked<'a> {
    /// What a request asks, if its action and its word have such names.
    pub fn of_request(alloc: Global, request: &'a Request<'a>) -> Option<Asked<'a>> {
        Some(Asked {
            alloc,
            request,
            action: Action::of_name(request.action)?,
            other: Codec::of_name(request.word)?,
        })
    }

    /// Whether the codec that is asked writes the value.
    pub(crate) fn writes(&self) -> bool {
        matches!(&self.action, Action::Write)
    }

    /// The codec that reads and the one that writes, if the value is that of all bytes.
    pub fn conversion(&self) -> Option<(Codec, Codec)> {
        match self.action {
            Action::Read => Some((self.request.codec, self.other)),
            Action::Write => Some((self.other, self.request.codec)),
            _ => None,
        }
    }

    /// How deep values may be nested that are read.
    pub(crate) fn reading_depth(&self) -> usize {
        if self.writes() {
            ENOUGH
        } else {
            self.request.depth
        }
    }

    /// How deep values may be nested that are written.
    pub(crate) fn writing_depth(&self) -> usize {
        if self.writes() {
            self.request.depth
        } else {
            ENOUGH
        }
    }
}
