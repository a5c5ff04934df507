//! Values that hold themselves.
use asn1_dec::Decode;
use asn1_enc::{Encode, EncodeError};
use asn1_open::Open;
use asn1_recursive::Nested;
use asn1_types::InstanceOf;
use std::alloc::Global;
use std::io;
use test_calls::made::units;
use test_calls::{Failure, Request, node_chain};

/// Makes a value that holds itself, and does with it what is asked for.
pub(crate) fn run(rt: &impl Print, alloc: Global, request: &Request<'_>) -> io::Result<()> {
    let Ok(levels) = request.word.parse::<usize>() else {
        return println!(rt; "not understood");
    };
    match request.type_name {
        "node" => go(
            rt,
            alloc,
            node_chain(alloc, levels).map_err(Failure::from),
            request,
        ),
        "nested" => go(rt, alloc, flag_inside(alloc, levels), request),
        "open" => go(rt, alloc, null_inside_instances(alloc, levels), request),
        _ => println!(rt; "not understood"),
    }
}

/// Goes through the steps with a value that was made, and prints a line after each: where the stack ends in a step, its line is
/// missing.
fn go<T: Encode + Decode>(
    rt: &impl Print,
    alloc: Global,
    made: Result<T, Failure>,
    request: &Request<'_>,
) -> io::Result<()> {
    let Ok(value) = made else {
        return println!(rt; "not made");
    };
    println!(rt; "made")?;
    if request.action == "nest" {
        write_and_read(rt, alloc, &value, request)?;
    }
    drop(value);
    println!(rt; "dropped")
}

/// Writes a value and reads it. If it is nested too deep to be written, it is written without a limit, and read with the limit.
fn write_and_read<T: Encode + Decode>(
    rt: &impl Print,
    alloc: Global,
    value: &T,
    request: &Request<'_>,
) -> io::Result<()> {
    match request.codec.write(alloc, value, request.depth) {
        Ok(bytes) => {
            println!(rt; "written: {} bytes", bytes.len())?;
            read::<T>(rt, alloc, &bytes, request)
        }
        Err(EncodeError::Depth) => {
            println!(rt; "{}", EncodeError::Depth)?;
            write_all_and_read(rt, alloc, value, request)
        }
        Err(error) => println!(rt; "{error}"),
    }
}

fn write_all_and_read<T: Encode + Decode>(
    rt: &impl Print,
    alloc: Global,
    value: &T,
    request: &Request<'_>,
) -> io::Result<()> {
    match request.codec.write(alloc, value, usize::MAX) {
        Ok(bytes) => read::<T>(rt, alloc, &bytes, request),
        Err(error) => println!(rt; "{error}"),
    }
}

fn read<T: Decode>(
    rt: &impl Print,
    alloc: Global,
    bytes: &Vec<u8>,
    request: &Request<'_>,
) -> io::Result<()> {
    match request.codec.read::<T>(alloc, bytes, request.depth) {
        Ok(value) => {
            let printed = println!(rt; "read");
            drop(value);
            printed
        }
        Err(error) => println!(rt; "{error}"),
    }
}

/// A flag with this many values around it, one in another.
fn flag_inside(alloc: Global, around: usize) -> Result<Nested, Failure> {
    let mut value = Nested::Flag(true);
    for _level in 0..around {
        value = match Box::new(alloc, value) {
            Ok(inner) => Nested::Inner(inner),
            Err(_) => return Err(Failure::Memory),
        };
    }
    Ok(value)
}

/// A NULL with this many INSTANCE OF around it, one in another, each of the identifier 1, 3.
fn null_inside_instances(alloc: Global, around: usize) -> Result<Open, Failure> {
    let mut value = Open::Null;
    for _level in 0..around {
        value = instance(alloc, value)?;
    }
    Ok(value)
}

fn instance(alloc: Global, value: Open) -> Result<Open, Failure> {
    let type_id = units(alloc, &[1, 3])?;
    match Box::new(alloc, InstanceOf { type_id, value }) {
        Ok(instance) => Ok(Open::InstanceOf(instance)),
        Err(_) => Err(Failure::Memory),
    }
}
