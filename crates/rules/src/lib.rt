// The rules of document 01 and the theorems about them; no code.
#![tactic(auto)]
