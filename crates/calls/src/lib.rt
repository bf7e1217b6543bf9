// The single call and the plan call as definitions: the nature derived, the derived sheet, the calls. No code.
#![tactic(auto)]
