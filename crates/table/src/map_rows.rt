// The rows in which the map is printed: a register's half, the route bytes, the vector bytes, and what lies between.
ghost use Rattle.std.specs.Prelude.{◌≡◌, ◌<◌};
ghost use Rattle.table.specs.Meaning.{Agrees};
ghost use Rattle.table.specs.Views.{place_view};
ghost use Rattle.table.specs.map_rows.Rows.{is_nothing, begins, Row};

use crate::{Place, look};

fn is_nothing(place: Place) -> bool
    ensures { result ≡ is_nothing (place_view place) }
{
    matches!(place, Place::Nothing)
}

// Whether a row begins at a place, behind a row that began at another.
fn begins(first: Place, next: Place) -> bool
    ensures { result ≡ begins (place_view first) (place_view next) }
{
    match next {
        Place::Part { byte, .. } => byte == 0,
        Place::Route(input) | Place::Vector(input) => input == 0,
        Place::Nothing => !is_nothing(first),
    }
}

// Where the row ends that begins at an offset.
pub fn row_end(table: &[[u8; 32]; 32], start: usize) -> usize
    requires { Agrees table.now × (start < 1024) }
    ensures { Row start result }
{
    let first = look(table, start);
    for at in start + 1..1024 {
        if begins(first, look(table, at)) {
            return at;
        }
    }
    1024
}
