//! Names that are told apart.
use std::alloc::{AllocError, Global};
use std::collections::HashMap;

/// The names of a scope.
#[derive(Drop)]
pub struct TakenNames {
    alloc: Global,
    // The least number that may be free behind each name that is taken, which is in lower case.
    numbers: HashMap<String, usize>,
}

impl TakenNames {
    /// No name yet.
    pub fn new(alloc: Global) -> TakenNames {
        TakenNames {
            alloc,
            numbers: HashMap::new(alloc),
        }
    }

    /// Takes a name that is free without regard to case: this one, or else this one with the least number behind it, from 2 on.
    pub fn take(&mut self, name: &str) -> Result<String, AllocError> {
        let lower = lower_case(self.alloc, name)?;
        match self.numbers.get(lower.as_str()).copied() {
            Some(number) => self.take_numbered(name, lower.as_str(), number),
            None => {
                self.numbers.insert(lower, 2)?;
                String::from_str(self.alloc, name)
            }
        }
    }

    // Takes a name with the least number behind it that is free, from this one on. If no number is left, memory cannot hold the
    // names.
    fn take_numbered(
        &mut self,
        name: &str,
        lower: &str,
        first: usize,
    ) -> Result<String, AllocError> {
        for number in first..usize::MAX {
            let numbered = format!(in self.alloc; "{lower}{number}")?;
            if !self.numbers.contains_key(numbered.as_str()) {
                self.numbers.insert(numbered, 2)?;
                self.start_at(lower, number);
                return format!(in self.alloc; "{name}{number}");
            }
        }
        Err(AllocError)
    }

    // Keeps that no number before this one is free behind a name.
    fn start_at(&mut self, lower: &str, number: usize) {
        if let Some(least) = self.numbers.get_mut(lower) {
            *least = number;
        }
    }
}

// A name in lower case.
fn lower_case(alloc: Global, name: &str) -> Result<String, AllocError> {
    let mut lower = String::new(alloc);
    for character in name.chars() {
        lower.push(character.to_ascii_lowercase())?;
    }
    Ok(lower)
}
