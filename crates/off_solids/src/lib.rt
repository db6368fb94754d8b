// Two object texts and a far point made into a scene.
#![tactic(auto)]

pub mod points;
pub mod whole;
mod write;
