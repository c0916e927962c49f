// A command with the octets that it was read from: all its objects, or its first alone.
ghost use Rattle.std.specs.Prelude.{◌≡◌, ◌+◌, ◌≤◌, length};
ghost use Rattle.octets.specs.Number.{Octets};
ghost use Rattle.asdu.specs.Command.{first_element, object_at, first_object};

use crate::command::Command;
use limits::size::{ADDRESS_OCTETS, HEADER_OCTETS};

// A command and its octets, which hold exactly its objects.
#[derive(Clone, Copy)]
pub struct Asked<'a> {
    pub command: Command,
    pub asdu: &'a [u8],
    pub ghost octets: { Octets asdu.now },
    pub ghost whole: { length asdu.now ≡ object_at command.element command.count },
}

impl<'a> Asked<'a> {
    // The first object: its address and where its element lies; or none.
    pub fn first_object(self) -> Option<(usize, usize)>
        ensures { result ≡ first_object self.entry.command self.entry.asdu.now }
    {
        if self.command.count == 0 {
            return None;
        }
        Some((
            octets::number_at::<3>(self.asdu, HEADER_OCTETS),
            HEADER_OCTETS + ADDRESS_OCTETS,
        ))
    }
}

// A command and octets in which its first object lies, with an element as long as a type's can be: it can be confirmed.
#[derive(Clone, Copy)]
pub struct Confirmable<'a> {
    pub command: Command,
    pub asdu: &'a [u8],
    pub ghost octets: { Octets asdu.now },
    pub ghost small: { command.element ≤ 12 },
    pub ghost inside: { first_element + command.element ≤ length asdu.now },
}
