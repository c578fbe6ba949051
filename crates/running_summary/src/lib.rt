// A part of a log and its summary: the state after a part is what the part's summary says of the state
// before it (proofs/Meaning.antt). There is no code here.
#![tactic(auto)]
