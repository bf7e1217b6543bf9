// The step: the starred examples, what no call reaches, and that no rule reads a node number. Definitions and laws, without code.
#![tactic(auto)]
