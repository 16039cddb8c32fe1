// The run theorem is about definitions: it stands in specs, and there is no code here.
#![tactic(auto)]
