// The call that shows a node, computed: the examples of 02, S-7. Definitions and laws, without code.
#![tactic(auto)]
