// The questions to a scene. Each takes the scene's bytes, judges them once, and answers or refuses: a refusal of the scene (1 to 9, and 14)
// comes before the question's own (10 to 12), and 11 before 12.

#![tactic(auto)]

pub mod counts;
pub mod facts;
pub mod inside;
pub mod lists;
pub mod masks;
pub mod points;
pub mod verdict;
