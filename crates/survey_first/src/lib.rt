// The first pierced pair of a scene, and where there is none the words of enclosed vertices: all that a verdict asks. No table of edges is
// made.
#![tactic(auto)]

ghost use Rattle.std.specs.Prelude.{◌≡◌, []};
ghost use Rattle.survey_edges.specs.Edges.{AreLinks};
ghost use Rattle.scene.specs.Arrays.{row_in, face_in};
ghost use Rattle.survey_sides.specs.Lent.{SidesFilled};
ghost use Rattle.survey_sides.specs.Slopes.{Sloped};
ghost use Rattle.questions.specs.Hits.{view_in, solid_hits};
ghost use Rattle.survey_enclosed.specs.Ready.{Ready};
ghost use Rattle.survey_enclosed.specs.Walk.{inside_word};
ghost use Rattle.survey_first.specs.FindFirst.{IsFirstOrEnclosed, crossed_by};
ghost use Rattle.survey_narrow.specs.Sides.{Begun};

use crate::first::first_of;
use crate::first_look::first_look;
use questions::Pair;
use scene::{Corners, Rows, Scene, Solid};
use survey_edges::links::{VertexSets, WORDS, fill_links};
use survey_enclosed::enclosed_word;
use survey_narrow::separating_faces::SeparatingFaces;
use survey_narrow::setup::{fill_narrowing, fill_sides_lent, make_planes};
use survey_sides::Surveyor;
use survey_sides::planes::Planes;
use survey_sides::slopes::Slopes;

mod first;
mod first_look;

// The first pair; where there is none, the words of A's vertices that B encloses and of B's that A does.
#[derive(Clone, Copy)]
pub struct FirstOrEnclosed {
    pub first: Option<Pair>,
    pub a: u64,
    pub b: u64,
}

fn crossed(u: usize, v: usize, f: usize) -> FirstOrEnclosed
    ensures { result ≡ crossed_by u v f }
{
    FirstOrEnclosed {
        first: Some((u, v, f)),
        a: 0,
        b: 0,
    }
}

// The word of the enclosed vertices of a solid none of whose edges pierces: no edge is odd.
fn inside_still<E: Surveyor>(
    engine: E,
    rows: &Rows,
    corners: &Corners,
    n: usize,
    k: Solid,
    links: &VertexSets,
    words: &survey_sides::point_masks::PointMasks,
) -> u64
    requires solid { Ready (view_in n rows.now corners.now) k × AreLinks (view_in n rows.now corners.now) k links.now }
    requires sides { SidesFilled (view_in n rows.now corners.now) k words.now }
    requires none { [] ≡ solid_hits (view_in n rows.now corners.now) k }
    ensures { result ≡ inside_word (view_in n rows.now corners.now) k }
{
    let odds: VertexSets = [0; WORDS];
    enclosed_word(engine, rows, corners, n, k, links, &odds, words)
}

// By A's links and words: all edges. The table of planes takes those that B's vertices are asked by.
fn find_first_by_sides<E: Surveyor>(
    engine: E,
    rows: &Rows,
    corners: &Corners,
    n: usize,
    a: Solid,
    b: Solid,
    planes: &mut Planes,
    links: &VertexSets,
    words: &survey_sides::point_masks::PointMasks,
    slopes: &mut Slopes,
) -> FirstOrEnclosed
    requires begun { Begun (view_in n rows.now corners.now) a b planes.old links.now words.now }
    requires sloped { Sloped (row_in rows.now) (face_in corners.now) slopes.old }
    ensures { IsFirstOrEnclosed (view_in n rows.now corners.now) a b result }
{
    let mut others: survey_sides::point_masks::PointMasks = [0; 2 * (Scene::MOST_POINTS + 1)];
    let mut own: survey_sides::point_masks::PointMasks = [0; 2 * (Scene::MOST_POINTS + 1)];
    let mut separating: SeparatingFaces = [0; 2 * (Scene::MOST_FACES + 1)];
    let mut blinks: VertexSets = [0; WORDS];
    make_planes(rows, corners, b, planes);
    fill_sides_lent(rows, corners, planes, n, b, &mut others, slopes);
    fill_narrowing(corners, a, b, &others, &mut own, &mut separating);
    let of_a = first_of(engine, rows, corners, n, a, links, words, &own, &separating);
    if let Some((u, v, f)) = of_a {
        return crossed(u, v, f);
    }
    fill_links(corners, b, &mut blinks);
    fill_narrowing(corners, b, a, words, &mut own, &mut separating);
    let of_b = first_of(
        engine,
        rows,
        corners,
        n,
        b,
        &blinks,
        &others,
        &own,
        &separating,
    );
    if let Some((u, v, f)) = of_b {
        return crossed(u, v, f);
    }
    FirstOrEnclosed {
        first: None,
        a: inside_still(engine, rows, corners, n, a, links, words),
        b: inside_still(engine, rows, corners, n, b, &blinks, &others),
    }
}

// The first pair of both solids; where there is none, what is enclosed. A few edges are looked at before anything is told of the vertices.
pub fn find_first<E: Surveyor>(
    engine: E,
    rows: &Rows,
    corners: &Corners,
    n: usize,
    a: Solid,
    b: Solid,
) -> FirstOrEnclosed
    requires { Ready (view_in n rows.now corners.now) a × Ready (view_in n rows.now corners.now) b }
    ensures { IsFirstOrEnclosed (view_in n rows.now corners.now) a b result }
{
    let mut planes: Planes = [0; 4 * (Scene::MOST_FACES + 1)];
    let mut slopes: Slopes = [0; 4 * (2 * Scene::MOST_FACES + 1)];
    let mut links: VertexSets = [0; WORDS];
    make_planes(rows, corners, a, &mut planes);
    fill_links(corners, a, &mut links);
    let found = first_look(engine, rows, corners, n, a, &planes, &links, &mut slopes);
    if let Some((u, v, f)) = found {
        return crossed(u, v, f);
    }
    let mut words: survey_sides::point_masks::PointMasks = [0; 2 * (Scene::MOST_POINTS + 1)];
    fill_sides_lent(rows, corners, &planes, n, a, &mut words, &mut slopes);
    find_first_by_sides(
        engine,
        rows,
        corners,
        n,
        a,
        b,
        &mut planes,
        &links,
        &words,
        &mut slopes,
    )
}
