// The worked cases of document 01 are claims about the definitions: see specs/Cases.antt and proofs/CaseProofs.antt.

#![tactic(auto)]
