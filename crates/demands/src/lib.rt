// The demands of document 01 as theorems about the public calls, in specs/. No code.

#![tactic(auto)]
