// The map that sixteen words denote: each a whole number, row by row.
ghost use Rattle.std.specs.Prelude.{◌≡◌};
ghost use Rattle.map.specs.Asked.{row_of, map_of};

use map_image::Map;
use scene::Row;

#[tactic(auto, unfolding(crate::specs::Asked::row_of))]
pub fn row_of(x: Option<i64>, y: Option<i64>, z: Option<i64>, w: Option<i64>) -> Option<Row>
    ensures { result ≡ row_of x y z w }
{
    Some(Row {
        x: x?,
        y: y?,
        z: z?,
        w: w?,
    })
}

#[tactic(auto, unfolding(crate::specs::Asked::map_of))]
pub fn map_of(x: Option<Row>, y: Option<Row>, z: Option<Row>, w: Option<Row>) -> Option<Map>
    ensures { result ≡ map_of x y z w }
{
    Some(Map {
        x: x?,
        y: y?,
        z: z?,
        w: w?,
    })
}
