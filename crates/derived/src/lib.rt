// What a component derives of sheets of a stored form keeps to that form: definitions and laws, without code.
#![tactic(auto)]
