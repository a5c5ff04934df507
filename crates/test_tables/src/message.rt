//! Messages whose parts are read by the tables of object sets, and written again.
use crate::answer::{Answer, Refusal};
use asn1_der::DerRules;
use asn1_schema::{Any, Rules};
use signals::{AnswerParts, Request, RequestParts};
use std::alloc::{AllocError, Global};

// As many scopes as a message may nest.
const DEPTH: usize = 16;

/// Reads a request, and writes it again.
pub(crate) fn read_request(alloc: Global, octets: &Vec<u8>) -> Answer {
    match request(alloc, octets) {
        Ok((parts, is_same)) => Answer::Request(parts, is_same),
        Err(refusal) => Answer::from(refusal),
    }
}

/// Reads an answer, and writes it again.
pub(crate) fn read_answer(alloc: Global, octets: &Vec<u8>) -> Answer {
    match answer(alloc, octets) {
        Ok((parts, is_same)) => Answer::Answer(parts, is_same),
        Err(refusal) => Answer::from(refusal),
    }
}

// The parts of a request, and whether it was written as it was read.
fn request(alloc: Global, octets: &Vec<u8>) -> Result<(Vec<RequestParts>, bool), Refusal> {
    let rules = DerRules::new(alloc);
    let mut message: Request = rules.read_value(octets, DEPTH)?;
    let mut parts = Vec::new(alloc);
    for part in message.parts.iter_mut() {
        let read = RequestParts::read(&rules, alloc, part.number, part.content.as_bytes(), DEPTH)?;
        part.number = read.number();
        part.content = Any::new(read.write(&rules, alloc, DEPTH)?);
        if parts.push(read).is_err() {
            return Err(Refusal::from(AllocError));
        }
    }
    let written = rules.write_value(&message, DEPTH)?;
    Ok((parts, written == *octets))
}

// The parts of an answer, and whether it was written as it was read. Its other parts are of no set.
fn answer(alloc: Global, octets: &Vec<u8>) -> Result<(Vec<AnswerParts>, bool), Refusal> {
    let rules = DerRules::new(alloc);
    let mut message: signals::Answer = rules.read_value(octets, DEPTH)?;
    let mut parts = Vec::new(alloc);
    for part in message.parts.iter_mut() {
        let read = AnswerParts::read(&rules, alloc, part.number, part.content.as_bytes(), DEPTH)?;
        part.number = read.number();
        part.content = Any::new(read.write(&rules, alloc, DEPTH)?);
        if parts.push(read).is_err() {
            return Err(Refusal::from(AllocError));
        }
    }
    let written = rules.write_value(&message, DEPTH)?;
    Ok((parts, written == *octets))
}
