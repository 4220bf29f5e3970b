// The library that C links: an export for each function that `embed`, `images`, `recorder` and `ledger` offer to other languages, under the same name
// and by the same clauses, word for word. Each calls that function and nothing else.
#![tactic(auto)]

mod audits;
mod machine;
mod pictures;
mod scripts;
