// It has no code: specs/ has the theorems of the definition (crate model) that are of more than one call or settling.
#![tactic(auto)]
