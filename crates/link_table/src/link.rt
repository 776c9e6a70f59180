//! Links between points.

use inc_value::Point;

/// One link: `reader` reads `kid`.
#[derive(Clone, Copy)]
pub struct Link {
    pub reader: Point,
    pub kid: Point,
}
