// Inner: a case file there and back: what was written is read as it was meant, and what was read is written
// as the same bytes. Theorems about the promises of `read_case` and `write_case`; no code.
#![tactic(auto)]
