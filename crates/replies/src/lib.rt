// What a call that changes the table gives back: the definitions that say it of each form of result, and their laws; no code.
#![tactic(auto)]
