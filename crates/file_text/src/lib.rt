// Inner: the case file of a net, its initial marking and a word, as text, and the theorem that the reader
// accepts exactly such files. Definitions and laws; no code.
#![tactic(auto)]
