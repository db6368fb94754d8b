// A vertex in doubles: taken as a scene's row, or refused.
#![tactic(auto)]

ghost use Rattle.std.specs.Prelude.{◌≡◌};
ghost use Rattle.doubles.specs.Taken.{fault_at, fault_number, fault_place, taken_of};
ghost use Rattle.doubles.specs.declared.Fault.TheVariants.{OfScene};

use scene::{Numbered, Refusal, Row, Scene};
use whole::{Unfit, read, weight};

pub mod determinant;
pub mod record;
mod whole;

#[derive(Clone, Copy)]
pub struct Vertex {
    pub x: f64,
    pub y: f64,
    pub z: f64,
    pub w: f64,
}

// Why a vertex is not taken: one of its numbers is not whole, or it is what a scene refuses too. The place is 1 to 4: x, y, z, weight.
#[derive(Clone, Copy)]
pub enum Fault {
    NotWhole(usize),
    OfScene(Refusal),
}

impl From<Refusal> for Fault {
    ghost from_gives = { λ r f. f ≡ OfScene r };

    fn from(r: Refusal) -> Fault {
        Fault::OfScene(r)
    }
}

impl Numbered for Fault {
    ghost number = { fault_number };

    ghost place = { fault_place };

    fn number(self) -> usize {
        match self {
            Fault::NotWhole(_) => 15,
            Fault::OfScene(r) => r.number(),
        }
    }

    fn place(self) -> usize {
        match self {
            Fault::NotWhole(p) => p,
            Fault::OfScene(r) => r.place(),
        }
    }
}

// The scene's four numbers, where all four are whole and within the limits. The first that is not is refused: x, y, z, weight.
pub fn take(v: Vertex) -> Result<Row, Fault>
    ensures { result ≡ taken_of v }
{
    let x = read(v.x, Scene::MOST_COORDINATE).map_err(|e| fault_at(e, 1, Refusal::Coordinate(1)))?;
    let y = read(v.y, Scene::MOST_COORDINATE).map_err(|e| fault_at(e, 2, Refusal::Coordinate(2)))?;
    let z = read(v.z, Scene::MOST_COORDINATE).map_err(|e| fault_at(e, 3, Refusal::Coordinate(3)))?;
    let w = weight(v.w).map_err(|e| fault_at(e, 4, Refusal::Weight(4)))?;
    Ok(Row { x, y, z, w })
}

// What is wrong with the number at a place: outside its limits it is what a scene refuses there.
fn fault_at(e: Unfit, place: usize, outside: Refusal) -> Fault
    ensures { result ≡ fault_at e place outside }
{
    match e {
        Unfit::NotWhole => Fault::NotWhole(place),
        Unfit::Outside => Fault::from(outside),
    }
}
