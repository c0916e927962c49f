// A command as it is read from its octets.
ghost use Rattle.std.specs.Prelude.{◌≡◌, ◌≤◌, length};
ghost use Rattle.limits.specs.Size.{class_of, header_octets};
ghost use Rattle.asdu.specs.Command.{is_system, is_process, serves, length_ok, whole_objects, command_in, read_as, refusal_of};

use limits::outcome::Refusal;
use limits::size::{ADDRESS_OCTETS, CONTROL_OCTETS, Class, HEADER_OCTETS};

// Which of the two entries asks.
#[derive(Clone, Copy)]
pub enum Entry {
    SystemCommands,
    ProcessCommands,
}

// The parts of a command; `element` is the octets of one element of its type.
#[derive(Clone, Copy)]
pub struct Command {
    pub kind: u8,
    pub count: u8,
    pub cause: u8,
    pub test: bool,
    pub originator: u8,
    pub ca: u16,
    pub element: usize,
}

// Why an entry reads no command: the first test that fails, in document 01's order.
#[derive(Clone, Copy, Debug, PartialEq, Eq)]
pub enum Unread {
    LengthOutOfRange,
    TypeNotServed,
    ObjectsNotWhole,
}

// What answers octets that are no command.
impl From<Unread> for Refusal {
    ghost from_gives = { λ unread refusal. refusal ≡ refusal_of unread };

    fn from(unread: Unread) -> Refusal {
        match unread {
            Unread::LengthOutOfRange => Refusal::Malformed,
            Unread::TypeNotServed => Refusal::Silent,
            Unread::ObjectsNotWhole => Refusal::Malformed,
        }
    }
}

// A test for each definition: one function with the class given would be no plainer.
fn is_system(class: Option<Class>) -> bool
    ensures { result ≡ is_system class }
{
    class == Some(Class::System)
}

fn is_process(class: Option<Class>) -> bool
    ensures { result ≡ is_process class }
{
    class == Some(Class::Process)
}

// Does the entry serve the type?
fn is_served(entry: Entry, kind: u8) -> bool
    ensures { result ≡ serves entry (class_of kind) }
{
    let class = limits::size::class_of(kind);
    match entry {
        Entry::SystemCommands => is_system(class),
        Entry::ProcessCommands => is_process(class),
    }
}

// Is n a length that an ASDU can have?
fn is_length(n: usize, limit: usize) -> bool
    ensures { result ≡ length_ok limit n }
{
    if n < HEADER_OCTETS {
        return false;
    }
    if limit < CONTROL_OCTETS {
        return false;
    }
    n <= limit - CONTROL_OCTETS
}

// Is the sequence flag clear, and do the octets hold exactly as many objects as the count says?
fn has_whole_objects(asdu: &[u8]) -> bool
    requires { header_octets ≤ length asdu.now }
    ensures { result ≡ whole_objects asdu.now }
{
    if 128 <= asdu[1] {
        return false;
    }
    let count = usize::from(asdu[1] % 128);
    let element = limits::size::element_octets(asdu[0]);
    asdu.len() == HEADER_OCTETS + count * (ADDRESS_OCTETS + element)
}

// The parts of a command; its own negative bit is not read.
fn command_in(asdu: &[u8]) -> Command
    requires { header_octets ≤ length asdu.now }
    ensures { result ≡ command_in asdu.now }
{
    Command {
        kind: asdu[0],
        count: asdu[1] % 128,
        cause: asdu[2] % 64,
        test: 128 <= asdu[2],
        originator: asdu[3],
        ca: octets::number_at::<2>(asdu, 4) as u16,
        element: limits::size::element_octets(asdu[0]),
    }
}

// Reads a command under a length limit, testing in document 01's order.
pub fn parse(asdu: &[u8], entry: Entry, limit: usize) -> Result<Command, Unread>
    ensures { result ≡ read_as limit entry asdu.now }
{
    if !is_length(asdu.len(), limit) {
        return Err(Unread::LengthOutOfRange);
    }
    if !is_served(entry, asdu[0]) {
        return Err(Unread::TypeNotServed);
    }
    if !has_whole_objects(asdu) {
        return Err(Unread::ObjectsNotWhole);
    }
    Ok(command_in(asdu))
}
