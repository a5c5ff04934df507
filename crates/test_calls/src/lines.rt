//! Lines of requests and their answers.
use crate::answer::Answer;
use crate::asked::Asked;
use crate::request::Request;
use std::alloc::Global;
use std::io;

/// What a program answers.
pub trait Answers {
    /// The answer to a request, if the program answers it.
    fn answer_to(&self, asked: &Asked<'_>) -> Option<Answer>;
}

/// Prints a line, with the answer in it if it is a request. A comment and an empty line are printed as they are.
///
/// # Errors
/// A write that failed.
pub fn print_answer<A: Answers>(
    rt: &impl Print,
    alloc: Global,
    answers: &A,
    line: &str,
) -> io::Result<()> {
    if line.is_empty() || line.starts_with('#') {
        return println!(rt; "{line}");
    }
    let (words, source) = match line.split_once(" ; ") {
        Some(parts) => parts,
        None => (line, ""),
    };
    match Request::of_words(alloc, words) {
        Some(request) => match answer_of(alloc, answers, &request) {
            Some(answer) => println!(rt; "{words} -> {answer} ; {source}"),
            None => println!(rt; "{words} -> not asked here"),
        },
        None => println!(rt; "{words} -> not understood"),
    }
}

/// The answer to a request, if it is one of the program's.
fn answer_of<A: Answers>(alloc: Global, answers: &A, request: &Request<'_>) -> Option<Answer> {
    answers.answer_to(&Asked::of_request(alloc, request)?)
}
