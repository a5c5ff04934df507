//! The types of the lines.
use asn1_convert::{Answer, Task, TypeList};
use asn1_samples::{Badge, Node, Person, Ticket, Visit};
use greetings::{Audience, Greeting};
use std::alloc::AllocError;

/// Types of a module, and sample types: SEQUENCEs, two SETs, one with a list, and one with a group of additions.
pub(crate) struct Types {}

impl TypeList for Types {
    fn names() -> &'static str {
        "Greeting Audience Person Badge Ticket Visit Node"
    }

    fn answer(name: &str, task: Task<'_>) -> Option<Result<Answer, AllocError>> {
        Some(match name {
            "Greeting" => task.perform::<Greeting>(),
            "Audience" => task.perform::<Audience>(),
            "Person" => task.perform::<Person>(),
            "Badge" => task.perform::<Badge>(),
            "Ticket" => task.perform::<Ticket>(),
            "Visit" => task.perform::<Visit>(),
            "Node" => task.perform::<Node>(),
            _ => return None,
        })
    }
}
