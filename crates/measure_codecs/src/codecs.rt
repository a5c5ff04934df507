//! The codecs that are measured.
use crate::lists;
use crate::request::Request;
use asn1_bench::BenchRules;
use asn1_ber::BerRules;
use asn1_der::DerRules;
use asn1_tagform::TagRules;
use std::alloc::Global;
use std::io;

/// Does what is asked for with each codec of which it is asked.
pub(crate) fn run(rt: &impl Print, alloc: Global, request: Request<'_>) -> io::Result<()> {
    if is_asked("packed", request) {
        lists::run(rt, alloc, &BenchRules::new(alloc), request)?;
    }
    if is_asked("tag", request) {
        lists::run(rt, alloc, &TagRules::new(alloc), request)?;
    }
    if is_asked("der", request) {
        lists::run(rt, alloc, &DerRules::new(alloc), request)?;
    }
    if is_asked("ber", request) {
        lists::run(rt, alloc, &BerRules::new(alloc), request)?;
    }
    Ok(())
}

/// Whether the codec of this name is asked for.
fn is_asked(name: &str, request: Request<'_>) -> bool {
    let codec = request.word(0);
    codec == name || codec == "each"
}
