// Prints what `limits::size` says: for all 256 types the class, the element octets and the most objects of an ASDU; for
// each point type the octets of runs about the ends of an ASDU, and of 4,096 objects. The numbers that it must print
// are made by reference/sizes.py, which knows nothing of this code.
#![tactic(auto)]

use limits::size::{
    Class, STANDARD_LIMIT, class_of, element_octets, most_objects, point_octets, run_octets,
};
use std::io;
use std::io::{BufWriter, Write};

// The most points of a table.
const MOST_POINTS: usize = 4096;

fn main(rt: HostRuntime) -> io::Result<()> {
    let mut out = BufWriter::new(rt.alloc(), io::writer(&rt))?;
    for kind in 0..=255u8 {
        type_line(&mut out, kind)?;
    }
    for point in 0..=255u8 {
        run_line(&mut out, point)?;
    }
    out.flush()
}

// A type's number, class, element octets and most objects.
fn type_line<W: Write>(out: &mut W, kind: u8) -> io::Result<()> {
    let class = word(class_of(kind));
    let element = element_octets(kind);
    let most = most_objects(STANDARD_LIMIT, element);
    writeln!(out, "type {kind} {class} {element} {most}")
}

// The octets of a point type's runs about the ends of an ASDU; nothing for any other type.
fn run_line<W: Write>(out: &mut W, kind: u8) -> io::Result<()> {
    let element = point_octets(kind);
    if element == 0 {
        return Ok(());
    }
    let most = most_objects(STANDARD_LIMIT, element);
    write!(out, "run {kind}")?;
    for n in [
        0,
        1,
        most - 1,
        most,
        most + 1,
        2 * most,
        2 * most + 1,
        MOST_POINTS,
    ] {
        write!(out, " {}", run_octets(STANDARD_LIMIT, element, n))?;
    }
    writeln!(out)
}

// The word for a class.
fn word(class: Option<Class>) -> &'static str {
    match class {
        Some(Class::Point) => "point",
        Some(Class::System) => "system",
        Some(Class::Process) => "process",
        Some(Class::EndOfInitialization) => "end",
        None => "unknown",
    }
}
