// The table 'Edges of the behaviour' of document 01 as one theorem: crates/edges/specs/Table.antt says it, proofs/Edges.antt proves it.

#![tactic(auto)]
