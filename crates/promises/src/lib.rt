// The three demands as a page that is checked: specs/ states them over the definitions of the other crates, proofs/ proves each from their theorems. No code.
#![tactic(auto)]
