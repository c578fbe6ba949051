// Document 01's twelve samples as one statement over a list of them (specs/Samples.antt): of the
// definitions (proofs/Meaning.antt), and of whatever the entries' contracts allow
// (proofs/Promises.antt). There is no code here: tests/edges/samples.calls asks the library for C the
// same questions.
#![tactic(auto)]
