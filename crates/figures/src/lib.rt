// The figures of the scope, in specs/: no code, one table and one statement.
#![tactic(auto)]
