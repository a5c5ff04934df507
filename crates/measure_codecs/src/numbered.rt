//! Values of a number.
use asn1_samples::{Badge, Color, Contact, Corner, Person, Profile, Shape};
use asn1_values::Integer;
use std::alloc::Global;
use test_calls::Failure;
use test_calls::made::{letters, text};

/// A type that has a value for each number.
pub(crate) trait Numbered: Drop + Sized {
    /// The value of a number.
    fn of_number(alloc: Global, number: u32) -> Result<Self, Failure>;
}

/// A person whose age is the number.
impl Numbered for Person {
    fn of_number(alloc: Global, number: u32) -> Result<Person, Failure> {
        let name = text(alloc, name_of(number))?;
        Ok(Person {
            age: Integer::from(number),
            name,
        })
    }
}

/// One of four names.
fn name_of(number: u32) -> &'static str {
    match number % 4 {
        0 => "Ann",
        1 => "Bartholomew",
        2 => "",
        _ => "Christina of Sweden",
    }
}

/// A profile whose level is the lowest byte of the number, with a nickname if it is odd, and a contact if it is even.
impl Numbered for Profile {
    fn of_number(alloc: Global, number: u32) -> Result<Profile, Failure> {
        let level = (number % 256) as u8;
        if number % 2 == 0 {
            let contact = contact(alloc)?;
            return Ok(Profile {
                nick: None,
                level,
                color: Color::Blue,
                contact: Some(contact),
            });
        }
        let nick = text(alloc, name_of(number))?;
        Ok(Profile {
            nick: Some(nick),
            level,
            color: Color::Red,
            contact: None,
        })
    }
}

fn contact(alloc: Global) -> Result<Contact, Failure> {
    let phone = letters(alloc, b"0123")?;
    let mail = letters(alloc, b"a@b.org")?;
    Ok(Contact {
        phone: Some(phone),
        mail: Some(mail),
    })
}

/// A badge of the number, with a label if it is odd.
impl Numbered for Badge {
    fn of_number(alloc: Global, number: u32) -> Result<Badge, Failure> {
        if number % 2 == 0 {
            return Ok(Badge {
                id: number,
                label: None,
                shape: Shape::Ring((number % 65536) as u16),
            });
        }
        let label = letters(alloc, b"visitor")?;
        Ok(Badge {
            id: number,
            label: Some(label),
            shape: Shape::Inner(Corner::Left(true)),
        })
    }
}

/// The values of the numbers below a count.
pub(crate) fn list<T: Numbered>(alloc: Global, count: u32) -> Result<Vec<T>, Failure> {
    let mut list = Vec::new(alloc);
    for number in 0..count {
        let value = T::of_number(alloc, number)?;
        if list.push(value).is_err() {
            return Err(Failure::Memory);
        }
    }
    Ok(list)
}
