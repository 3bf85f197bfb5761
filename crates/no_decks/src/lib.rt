// What each call replies on a hull with no decks yet (document 02, point 5), one theorem: specs/Hull.antt says it, proofs/NothingLaidOut.antt proves it.

#![tactic(auto)]
