// The three demands that the reception desk makes, about the calls that read, write and edit frames. There is no code here: the statements
// are in specs/Demands.antt, and proofs/ proves them.
#![tactic(auto)]
