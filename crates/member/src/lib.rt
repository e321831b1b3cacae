// When it is shown that an individual is of a concept. There is no code here: specs/ has the definitions, proofs/ their theorems.
#![tactic(auto)]
