// The customer's demands as statements with their proofs, over every call of the C interface; no code. They begin with `Meets`, the contract of every
// entry of `khuvelter`, so that what they say is said of the entries.
#![tactic(auto)]
