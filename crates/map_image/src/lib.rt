// Scenes mapped by a 4×4 table of whole numbers.
#![tactic(auto)]

ghost use Rattle.std.specs.Prelude.{◌≡◌};
ghost use Rattle.map_image.specs.Image.{fault_number, fault_place};
ghost use Rattle.map_image.specs.declared.Fault.TheVariants.{Scene};

use scene::{Numbered, Refusal, Row};

pub mod image;
mod rows;

// The table: the row that x is multiplied with, then those of y, of z and of w.
#[derive(Clone, Copy)]
pub struct Map {
    pub x: Row,
    pub y: Row,
    pub z: Row,
    pub w: Row,
}

impl Map {
    // The largest entry.
    pub const MOST_ENTRY: usize = 100;
}

// Why there is no image: a refusal of the scene or of its image, 17 for an entry of the table, 18 for its determinant.
#[derive(Clone, Copy)]
pub enum Fault {
    Scene(Refusal),
    Entry,
    Singular,
}

impl From<Refusal> for Fault {
    ghost from_gives = { λ r f. f ≡ Scene r };

    fn from(r: Refusal) -> Fault {
        Fault::Scene(r)
    }
}

impl Numbered for Fault {
    ghost number = { fault_number };

    ghost place = { fault_place };

    fn number(self) -> usize {
        match self {
            Fault::Scene(r) => r.number(),
            Fault::Entry => 17,
            Fault::Singular => 18,
        }
    }

    fn place(self) -> usize {
        match self {
            Fault::Scene(r) => r.place(),
            Fault::Entry => 0,
            Fault::Singular => 0,
        }
    }
}
