// A station's share of the point table. Document 01, 'Points, stations and shares'; new beside the Rust.
ghost use Rattle.std.specs.Prelude.{◌≡◌};
ghost use Rattle.limits.specs.Share.{taken_in, let_go, unmet_of, admission_of};

use crate::outcome::Refusal;

// How many points a station holds, how many are kept for it, and how many it may hold.
#[derive(Clone, Copy, Debug, PartialEq, Eq)]
pub struct Share {
    pub held: usize,
    pub reservation: usize,
    pub ceiling: usize,
}

impl Share {
    // One point more; unchanged at or above the ceiling.
    pub fn take_in(self) -> Share
        ensures { result ≡ taken_in self }
    {
        if self.held < self.ceiling {
            return Share {
                held: self.held + 1,
                ..self
            };
        }
        self
    }

    // One point less; unchanged with nothing held.
    pub fn let_go(self) -> Share
        ensures { result ≡ let_go self }
    {
        if 0 < self.held {
            return Share {
                held: self.held - 1,
                ..self
            };
        }
        self
    }

    // What is still kept for the station: never below zero.
    #[tactic(auto, using(crate::proofs::Shares::unmet_is))]
    pub fn unmet(self) -> usize
        ensures { result ≡ unmet_of self }
    {
        self.reservation.saturating_sub(self.held)
    }

    // The share rule: one more point of this station may come in, with `free` places left and `unmet` kept for all stations, or has no room.
    pub fn admission(self, free: usize, unmet: usize) -> Result<(), Refusal>
        ensures { result ≡ admission_of self free unmet }
    {
        if self.held >= self.ceiling {
            return Err(Refusal::CeilingReached);
        }
        if self.held < self.reservation || unmet < free {
            return Ok(());
        }
        Err(Refusal::NotAdmitted)
    }
}
