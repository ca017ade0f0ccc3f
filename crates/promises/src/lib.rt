// The customer's promises, as theorems: see specs/. There is no code here.
#![tactic(auto)]
