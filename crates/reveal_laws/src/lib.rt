// What two runs of the call that shows a node have in common, and what one has in common with the plan call. Definitions and laws, without code.
#![tactic(auto)]
