//! Sets of words, one for each core, as definitions: what every signature keeps, and how rows of bits in a table mean such sets.
//! It has no code: the crate of signatures cites the definitions, and gives the lemmas as the facts of its implementations.
#![tactic(auto)]
