//! What each unfinished vertex owes to its finish, and the books: what a finish has got and is still
//! owed is what it is to give. Definitions and lemmas, and no function.
#![tactic(auto)]
