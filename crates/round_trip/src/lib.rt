// Sheets and their bytes, both ways, for every stored form: definitions and laws, without code.
#![tactic(auto)]
