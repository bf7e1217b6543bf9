// Demand 3: exact results, the claim and its proof over the whole plan. Definitions and laws, without code.
#![tactic(auto)]
