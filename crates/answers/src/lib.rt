// What every command says: definitions and their laws, and what it gives back. The code that says it stands above.
#![tactic(auto)]

ghost use Rattle.std.specs.Prelude.{◌≡◌};
ghost use Rattle.answers.specs.Said.{answered, given};

use limits::outcome::Refusal;

// How many octets a command wrote to the answer and to the spontaneous memory.
#[derive(Clone, Copy, Debug, PartialEq, Eq)]
pub struct Written {
    pub octets: usize,
    pub spontaneous: usize,
}

impl Written {
    // An answer of so many octets.
    pub fn given(octets: usize) -> Result<Written, Refusal>
        ensures { answered result ≡ given octets }
    {
        Ok(Written {
            octets,
            spontaneous: 0,
        })
    }
}
