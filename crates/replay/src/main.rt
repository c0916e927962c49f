// Makes the calls of lists on the entries of the C interface and on the two forms over records, and prints a line for each. Every
// argument names a list, a script in data/ of the form that reference/script.py describes; a further list is a further file and word.
#![tactic(auto)]

mod by_hand;
mod command_calls;
mod registration;
mod reply;
mod run;

use std::io::{BufWriter, Write};
use std::{env, io};

fn main(rt: HostRuntime) -> io::Result<()> {
    let mut out = BufWriter::new(rt.alloc(), io::writer(&rt))?;
    for name in env::args(&rt)?.skip(1) {
        run::replay_list(&rt, &mut out, name.as_str())?;
    }
    out.flush()
}
