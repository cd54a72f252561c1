// Which rows hold at each element of a finite world, and the bytes of elements and links: definitions and their laws, in specs/. Nothing to run.
#![tactic(auto)]
