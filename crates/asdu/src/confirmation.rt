// What answers a command: confirmations and terminations. From `commands.rs` and `system_command_handler.rs`.
ghost use Rattle.std.specs.Prelude.{◌≡◌, ◌++◌, ◌+◌, ◌≤◌, ◌<◌, length};
ghost use Rattle.limits.specs.Size.{header_octets};
ghost use Rattle.asdu.specs.Header.{header, asdu_octets};
ghost use Rattle.asdu.specs.Command.{first_element};
ghost use Rattle.asdu.specs.Confirmation.{reply_to, confirmation, echo};
ghost use Rattle.asdu.specs.Puts.{Puts};

use crate::asked::{Asked, Confirmable};
use crate::command::Command;
use crate::header;
use crate::header::Header;
use limits::size::{ADDRESS_OCTETS, HEADER_OCTETS};

// The header of an answer: originator, CA and test are the command's, all else is given.
pub fn reply_header(command: Command, kind: u8, count: u8, cause: u8, negative: bool) -> Header
    ensures { result ≡ reply_to command kind count cause negative }
{
    Header {
        kind: kind,
        count: count,
        cause: cause,
        negative: negative,
        test: command.test,
        originator: command.originator,
        ca: command.ca,
    }
}

// Writes an answer with objects of its own, given as octets, at the front of `out`.
pub fn put_reply(
    out: &mut [u8],
    command: Command,
    kind: u8,
    count: u8,
    cause: u8,
    negative: bool,
    objects: &[u8],
) -> usize
    requires { (cause < 64) × (header_octets + length objects.now ≤ length out.old) }
    ensures { Puts (header (reply_to command kind count cause negative) ++ objects.now) out.old result out.new }
{
    let h = reply_header(command, kind, count, cause, negative);
    header::put_asdu(out, h, objects)
}

// Writes a confirmation or termination with the first object alone at the front of `out`.
pub fn put_confirmation(out: &mut [u8], first: Confirmable, cause: u8, negative: bool) -> usize
    requires { (cause < 64) × (first_element + first.command.element ≤ length out.old) }
    ensures { Puts (asdu_octets (confirmation first.entry.command first.entry.asdu.now cause negative)) out.old result out.new }
{
    let start = HEADER_OCTETS;
    let end = start + (ADDRESS_OCTETS + first.command.element);
    put_reply(
        out,
        first.command,
        first.command.kind,
        1,
        cause,
        negative,
        &first.asdu[start..end],
    )
}

// Writes a confirmation that echoes all objects at the front of `out`. It asks nothing of the objects, so it stands beside `put_confirmation`.
pub fn put_echo(out: &mut [u8], asked: Asked, cause: u8, negative: bool) -> usize
    requires { (cause < 64) × (length asked.asdu.now ≤ length out.old) }
    ensures { Puts (asdu_octets (echo asked.entry.command asked.entry.asdu.now cause negative)) out.old result out.new }
{
    put_reply(
        out,
        asked.command,
        asked.command.kind,
        asked.command.count,
        cause,
        negative,
        &asked.asdu[HEADER_OCTETS..],
    )
}
