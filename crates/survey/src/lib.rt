// The survey of a scene: everything of it is worked out once, and all answers are read off tables.
#![tactic(auto)]

ghost use Rattle.survey_sides.specs.Lent.{SidesFilled};
ghost use Rattle.survey_narrow.specs.Lent.{Separated};
ghost use Rattle.questions.specs.Hits.{view_in};
ghost use Rattle.survey_enclosed.specs.Ready.{Ready};
ghost use Rattle.survey.specs.Survey.{Surveyed, Sized, Wide};

use scene::{Corners, Rows, Scene, Solid};
use survey_edges::links::{VertexSets, WORDS, fill_links};
use survey_edges::{Ends, Masks};
use survey_enclosed::enclosed_word;
use survey_enclosed::odds::fill_odds;
use survey_masks::fill_solid;
use survey_narrow::separating_faces::SeparatingFaces;
use survey_narrow::setup::{fill_narrowing, fill_sides, make_planes};
use survey_sides::Surveyor;
use survey_sides::planes::Planes;

pub mod answers;

// Of one solid: how many edges it has, and the word of its enclosed vertices.
#[derive(Clone, Copy)]
pub struct SolidSurvey {
    pub edges: usize,
    pub inside: u64,
}

// Of both.
#[derive(Clone, Copy)]
pub struct Survey {
    pub a: SolidSurvey,
    pub b: SolidSurvey,
}

// The edges of the solid go into the lent table.
pub fn survey_solid<E: Surveyor>(
    engine: E,
    rows: &Rows,
    corners: &Corners,
    n: usize,
    k: Solid,
    ends: &mut Ends,
    masks: &mut Masks,
) -> SolidSurvey
    requires { Ready (view_in n rows.now corners.now) k × Sized ends.old masks.old }
    ensures { Surveyed (view_in n rows.now corners.now) k ends.new masks.new result }
{
    let mut planes: Planes = [0; 4 * (Scene::MOST_FACES + 1)];
    let mut words: survey_sides::point_masks::PointMasks = [0; 2 * (Scene::MOST_POINTS + 1)];
    let own: survey_sides::point_masks::PointMasks = [0; 2 * (Scene::MOST_POINTS + 1)];
    let separating: SeparatingFaces = [0; 2 * (Scene::MOST_FACES + 1)];
    let mut links: VertexSets = [0; WORDS];
    let mut odds: VertexSets = [0; WORDS];
    make_planes(rows, corners, k, &mut planes);
    fill_sides(rows, corners, &planes, n, k, &mut words);
    survey_part(
        engine,
        rows,
        corners,
        n,
        k,
        &words,
        &own,
        &separating,
        ends,
        masks,
        &mut links,
        &mut odds,
    )
}

// The same by the tables of its masks. Links and odds are lent for its own words alone: what they held does not matter.
fn survey_part<E: Surveyor>(
    engine: E,
    rows: &Rows,
    corners: &Corners,
    n: usize,
    k: Solid,
    words: &survey_sides::point_masks::PointMasks,
    own: &survey_sides::point_masks::PointMasks,
    separating: &SeparatingFaces,
    ends: &mut Ends,
    masks: &mut Masks,
    links: &mut VertexSets,
    odds: &mut VertexSets,
) -> SolidSurvey
    requires solid { Ready (view_in n rows.now corners.now) k × Sized ends.old masks.old }
    requires tables { SidesFilled (view_in n rows.now corners.now) k words.now
        × Separated (view_in n rows.now corners.now) k own.now separating.now }
    requires lent { Wide links.old × Wide odds.old }
    ensures told { Surveyed (view_in n rows.now corners.now) k ends.new masks.new result }
    ensures lent { Wide links.new × Wide odds.new }
{
    let low = k.vert0;
    let verts = k.verts;
    fill_links(corners, k, links);
    let edges = fill_solid(
        engine, rows, corners, n, k, links, words, own, separating, ends, masks,
    );
    fill_odds(ends, masks, edges, low, verts, odds);
    let inside = enclosed_word(engine, rows, corners, n, k, links, odds, words);
    SolidSurvey { edges, inside }
}

// Of both solids, each into its own table. Planes, and what narrows the questions, are made for A, then for B in the
// same tables.
pub fn survey_scene<E: Surveyor>(
    engine: E,
    rows: &Rows,
    corners: &Corners,
    n: usize,
    a: Solid,
    b: Solid,
    aends: &mut Ends,
    amasks: &mut Masks,
    bends: &mut Ends,
    bmasks: &mut Masks,
) -> Survey
    requires ready { Ready (view_in n rows.now corners.now) a × Ready (view_in n rows.now corners.now) b }
    requires sized { Sized aends.old amasks.old × Sized bends.old bmasks.old }
    ensures surveyed { Surveyed (view_in n rows.now corners.now) a aends.new amasks.new result.a }
    ensures surveyed_2 { Surveyed (view_in n rows.now corners.now) b bends.new bmasks.new result.b }
{
    let mut planes: Planes = [0; 4 * (Scene::MOST_FACES + 1)];
    let mut wa: survey_sides::point_masks::PointMasks = [0; 2 * (Scene::MOST_POINTS + 1)];
    let mut wb: survey_sides::point_masks::PointMasks = [0; 2 * (Scene::MOST_POINTS + 1)];
    let mut own: survey_sides::point_masks::PointMasks = [0; 2 * (Scene::MOST_POINTS + 1)];
    let mut separating: SeparatingFaces = [0; 2 * (Scene::MOST_FACES + 1)];
    let mut links: VertexSets = [0; WORDS];
    let mut odds: VertexSets = [0; WORDS];
    make_planes(rows, corners, a, &mut planes);
    fill_sides(rows, corners, &planes, n, a, &mut wa);
    make_planes(rows, corners, b, &mut planes);
    fill_sides(rows, corners, &planes, n, b, &mut wb);
    fill_narrowing(corners, a, b, &wb, &mut own, &mut separating);
    let of_a = survey_part(
        engine,
        rows,
        corners,
        n,
        a,
        &wa,
        &own,
        &separating,
        aends,
        amasks,
        &mut links,
        &mut odds,
    );
    fill_narrowing(corners, b, a, &wa, &mut own, &mut separating);
    let of_b = survey_part(
        engine,
        rows,
        corners,
        n,
        b,
        &wb,
        &own,
        &separating,
        bends,
        bmasks,
        &mut links,
        &mut odds,
    );
    Survey { a: of_a, b: of_b }
}
