// What holds of every side of a link whose tables fit its watch table: theorems alone, no code. specs/ says what sides have in common, proofs/ what each then gets.
#![tactic(auto)]
