// Drafts with "not" and "if", and the rule files that they are converted into: definitions, in specs/. Nothing to run.
#![tactic(auto)]
