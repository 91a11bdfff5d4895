// What json and the crates on trees both rest on: a text's bytes, a count, laws of truth values. There is no code here.
#![tactic(auto)]
