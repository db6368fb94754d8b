// The scene file of two solids and a far point: its limits, its refusals, and what its bytes denote.
#![tactic(auto)]

ghost use Rattle.std.specs.Prelude.{ℕ, ◌≡◌};
ghost use Rattle.scene.specs.Limits.{limits, within, most_points, longest};
ghost use Rattle.scene.specs.Refusal.{number_of, place_of};

pub mod decode;
pub mod edges;
pub mod offsets;
pub mod read;
pub mod write;

// The header's counts.
#[derive(Clone, Copy)]
pub struct Scene {
    pub vertices_a: usize,
    pub faces_a: usize,
    pub vertices_b: usize,
    pub faces_b: usize,
}

impl Scene {
    pub const LEAST_VERTICES: usize = 3;

    pub const MOST_VERTICES: usize = 48;

    pub const LEAST_FACES: usize = 2;

    pub const MOST_FACES: usize = 96;

    pub const MOST_COORDINATE: usize = 4095;

    pub const MOST_WEIGHT: usize = 16;

    // The highest point number, the far point's, and the longest scene.
    pub const MOST_POINTS: usize = 2 * Scene::MOST_VERTICES + 1;

    pub const LONGEST: usize = 17 + 9 * (2 * Scene::MOST_VERTICES) + 5 * (2 * Scene::MOST_FACES);

    // The sizes of the arrays that a scene is decoded into: four numbers a point, three a face, at its number.
    pub const ROWS: usize = 4 * (Scene::MOST_POINTS + 1);

    pub const CORNERS: usize = 3 * (2 * Scene::MOST_FACES + 1);

    // The five marks, as two-byte numbers: `SC`, `FP`, `VX`, `FC`, `EN`.
    pub const SC: usize = 83 + 67 * 256;

    pub const FP: usize = 70 + 80 * 256;

    pub const VX: usize = 86 + 88 * 256;

    pub const FC: usize = 70 + 67 * 256;

    pub const EN: usize = 69 + 78 * 256;
}

// Why a question is not answered: a case for each number, with its place where that is not always 0.
#[derive(Clone, Copy)]
pub enum Refusal {
    Opening,
    Counts,
    Length,
    Mark(usize),
    Coordinate(usize),
    Weight(usize),
    Corner(usize),
    Unused(usize),
    Edge(usize),
    ListTooShort(usize),
    NoSuchNumber,
    NotDistinct,
    BufferTooShort(usize),
    FarAllZero(usize),
}

// Why something is refused: its number, which the printed lines and C have, and its place.
pub trait Numbered {
    ghost number: { Self → ℕ };

    ghost place: { Self → ℕ };

    fn number(self) -> usize
        ensures { result ≡ number self };

    fn place(self) -> usize
        ensures { result ≡ place self };
}

impl Numbered for Refusal {
    ghost number = { number_of };

    ghost place = { place_of };

    fn number(self) -> usize {
        match self {
            Refusal::Opening => 1,
            Refusal::Counts => 2,
            Refusal::Length => 3,
            Refusal::Mark(_) => 4,
            Refusal::Coordinate(_) => 5,
            Refusal::Weight(_) => 6,
            Refusal::Corner(_) => 7,
            Refusal::Unused(_) => 8,
            Refusal::Edge(_) => 9,
            Refusal::ListTooShort(_) => 10,
            Refusal::NoSuchNumber => 11,
            Refusal::NotDistinct => 12,
            Refusal::BufferTooShort(_) => 13,
            Refusal::FarAllZero(_) => 14,
        }
    }

    fn place(self) -> usize {
        match self {
            Refusal::Opening => 0,
            Refusal::Counts => 0,
            Refusal::Length => 0,
            Refusal::Mark(p) => p,
            Refusal::Coordinate(p) => p,
            Refusal::Weight(p) => p,
            Refusal::Corner(p) => p,
            Refusal::Unused(p) => p,
            Refusal::Edge(p) => p,
            Refusal::ListTooShort(p) => p,
            Refusal::NoSuchNumber => 0,
            Refusal::NotDistinct => 0,
            Refusal::BufferTooShort(p) => p,
            Refusal::FarAllZero(p) => p,
        }
    }
}

// A point's four numbers.
#[derive(Clone, Copy)]
pub struct Row {
    pub x: i64,
    pub y: i64,
    pub z: i64,
    pub w: i64,
}

// A face's three corners, in stored order.
#[derive(Clone, Copy)]
pub struct Face {
    pub p: usize,
    pub q: usize,
    pub r: usize,
}

// A solid: its vertices are the `verts` points behind point vert0, its faces the `faces` faces behind face face0, and the other solid's
// faces the `others` faces behind face other0.
#[derive(Clone, Copy)]
pub struct Solid {
    pub vert0: usize,
    pub verts: usize,
    pub face0: usize,
    pub faces: usize,
    pub other0: usize,
    pub others: usize,
}

// A scene's rows and corners, decoded once, in as few bytes as the limits ask for.
pub type Rows = [i16; Scene::ROWS];

pub type Corners = [u8; Scene::CORNERS];

// The limits of the definitions are those of the scene: changing either alone is refused.
pub fn limits_agree()
    ensures vertices { (Scene.LEAST_VERTICES ≡ limits.least_vertices) × (Scene.MOST_VERTICES ≡ limits.most_vertices) }
    ensures faces { (Scene.LEAST_FACES ≡ limits.least_faces) × (Scene.MOST_FACES ≡ limits.most_faces) }
    ensures numbers { (Scene.MOST_COORDINATE ≡ limits.most_coordinate) × (Scene.MOST_WEIGHT ≡ limits.most_weight) }
    ensures sizes { (Scene.MOST_POINTS ≡ most_points limits) × (Scene.LONGEST ≡ longest limits) }
{}

// A number within limits: of a count, a weight, a corner, or a number that a scene has.
pub fn is_within(low: usize, high: usize, n: usize) -> bool
    ensures { result ≡ within low high n }
{
    if n < low {
        return false;
    }
    n <= high
}
