// What holds of every flight: specs/ states it over the definitions of a flight, proofs/ proves it. No code.
#![tactic(auto)]
