// Which names are under which: definitions, in specs/. Nothing to run.
#![tactic(auto)]
